ghost use Rattle.std.specs.Prelude.{◌≡◌, ◌+◌, ◌-◌, ◌<◌, ◌++◌, length, replicate};
ghost use Rattle.std.specs.Vec.{vec_capacity};

/// How many numbers a command can have.
pub const NUMBERS: usize = 65_536;

/// A table by number that has memory for a number reaches it: what was past the table's end has this value.
pub fn reach<T: Copy>(table: &mut Vec<T>, number: usize, value: T)
    requires { number < vec_capacity table.old }
    ensures items { table.new.items ≡ table.old.items ++ replicate (number + 1 - length table.old.items) value }
    ensures capacity { vec_capacity table.new ≡ vec_capacity table.old }
{
    for at in table.len()..number + 1 {
        let _ = at;
        table.push_reserved(value);
    }
}
