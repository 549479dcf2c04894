//! What the words of the command line ask for.
ghost use Rattle.gate_journal.specs.Command.{IsBudget};
ghost use Rattle.command_words.specs.Packing.{HaveOtherNames};
ghost use Rattle.command_words.specs.Serving.{HasWorkers};

use crate::words::Action;

/// What the words ask for: the folder, the one that it is packed into, the names of the story files,
/// and the budget of a turn in ticks. Where links are served, the number of workers is in range; where a
/// folder is packed, the other one has another name.
#[derive(Drop)]
pub struct Command<'w> {
    pub action: Action,
    pub folder: &'w str,
    pub into: &'w str,
    pub names: Vec<&'w str>,
    pub budget: u64,
    ghost in_range: { IsBudget budget },
    ghost has_workers: { HasWorkers action },
    ghost have_other_names: { HaveOtherNames action folder.now into.now },
}
