use crate::act::Act;
use crate::step::Step;
use crate::who::Who;
use ata_base::Ms;

// The head of an entry and its acts.
#[derive(Drop)]
pub(crate) struct Last {
    pub(crate) at: Ms,
    pub(crate) who: Who,
    pub(crate) seq: u64,
    pub(crate) step: Step,
    pub(crate) acts: Vec<Act>,
}
