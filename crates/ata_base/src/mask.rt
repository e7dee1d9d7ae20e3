ghost use Rattle.std.specs.Prelude.{◌≡◌, ◌≤◌, Bool, length};
ghost use Rattle.ata_base.specs.Masks.{mask_of, Decides};

/// The mask of the elements that pass a test, at most 32 of them: bit `k` stands for the element `k`.
pub fn mask_of<T, F: Fn(&T) -> bool>(list: &[T], test: F) -> u32
    requires few { length list.now ≤ 32 }
    requires callable { F.IsAlwaysCallable test }
    ensures { (passes : T → Bool) → Decides F.Fn test passes → result ≡ mask_of passes list.now }
{
    let mut mask = 0;
    for below in 0..list.len() {
        let passes = test(&list[list.len() - 1 - below]);
        mask = 2 * mask + u32::from(passes);
    }
    mask
}
