ghost use Rattle.std.specs.Prelude.{◌≡◌, []};
ghost use Rattle.port_rules.specs.Run.{run};
ghost use Rattle.port_worked.specs.AnswersInTagOrder.{answers_in_tag_order_rows};
ghost use Rattle.port_worked.specs.Boots.{no_drive_found, unqueued_found, shallow_found, queued_found};
ghost use Rattle.port_worked.specs.EveryOperation.{every_operation_rows};
ghost use Rattle.port_worked.specs.FlushBetweenQueuedWrites.{flush_between_queued_writes_rows};
ghost use Rattle.port_worked.specs.Heads.{no_drive, unqueued, shallow, queued};
ghost use Rattle.port_worked.specs.Refusals.{refusals_rows};
ghost use Rattle.port_worked.specs.Rows.{calls, journal};
ghost use Rattle.port_worked.specs.ShallowQueue.{shallow_queue_rows};
ghost use Rattle.port_worked.specs.StrayInterrupt.{stray_interrupt_rows};
ghost use Rattle.port_worked.specs.ThirtyTwoTags.{thirty_two_tags_rows};
ghost use Rattle.port_worked.specs.WriteThenRead.{write_then_read_rows};

/// No drive: a port without one boots, and there is nothing to do.
pub fn no_drive()
    ensures { run no_drive [] ≡ journal no_drive_found [] }
{}

/// Write then read: without a queue, a read finds the stamp that a write gave to its sectors.
pub fn write_then_read()
    ensures { run unqueued (calls write_then_read_rows) ≡ journal unqueued_found write_then_read_rows }
{}

/// Refusals: a number that was accepted is never accepted again, and a command for no device, for no
/// or too many sectors, or past the end is refused, which leaves its number free.
pub fn refusals()
    ensures { run unqueued (calls refusals_rows) ≡ journal unqueued_found refusals_rows }
{}

/// Flush between queued writes: a flush is deferred while a queued write is in flight, and the queued
/// write behind it while the flush is.
pub fn flush_between_queued_writes()
    ensures { run queued (calls flush_between_queued_writes_rows) ≡ journal queued_found flush_between_queued_writes_rows }
{}

/// Answers in tag order: an interrupt answers all that the drive has ended, the lowest tag first, and
/// a read finds what was stored when the drive ended it.
pub fn answers_in_tag_order()
    ensures { run queued (calls answers_in_tag_order_rows) ≡ journal queued_found answers_in_tag_order_rows }
{}

/// Shallow queue: a queued command gets no tag from the depth of its drive's queue on, and is deferred
/// until a lower one is free.
pub fn shallow_queue()
    ensures { run shallow (calls shallow_queue_rows) ≡ journal shallow_found shallow_queue_rows }
{}

/// Every operation: each is issued and answered with its registers, reads and writes alone are queued,
/// and a step that finds nothing to do says so.
pub fn every_operation()
    ensures { run queued (calls every_operation_rows) ≡ journal queued_found every_operation_rows }
{}

/// Thirty-two tags: a queue of 32 takes 32 commands, each under the lowest free tag, and no more.
pub fn thirty_two_tags()
    ensures { run queued (calls thirty_two_tags_rows) ≡ journal queued_found thirty_two_tags_rows }
{}

/// Stray interrupt: one without cause answers nothing, and lowers the line that it raised; a command that is done meanwhile
/// is answered once.
pub fn stray_interrupt()
    ensures { run queued (calls stray_interrupt_rows) ≡ journal queued_found stray_interrupt_rows }
{}
