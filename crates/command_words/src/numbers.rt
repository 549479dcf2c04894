//! The numbers of the command line.
ghost use Rattle.std.specs.Prelude.{◌≡◌, ◌≤◌, IfSome};
ghost use Rattle.std.specs.Option.{option_map};
ghost use Rattle.gate_journal.specs.Command.{IsBudget};
ghost use Rattle.command_words.specs.Numbers.{IsWorkerCount, begins_number, budget_given};
ghost use Rattle.command_words.specs.Numbers.{budget_of, drill_number_of, links_given, links_of};
ghost use Rattle.command_words.specs.Numbers.{number_within, port_of, workers_of};

/// The budget of a turn unless set, in ticks.
pub const BUDGET: u64 = 50_000_000;

/// The greatest budget of a turn, in ticks.
const MOST_BUDGET: u64 = 1_000_000_000_000;

/// The greatest port.
const MOST_PORT: u64 = 65_535;

/// The most workers.
const MOST_WORKERS: u64 = 16;

/// The greatest number of a drill.
const MOST_DRILL: u64 = 18_446_744_073_709_551_615;

/// The most links that are taken, and how many unless set.
const MOST_LINKS: u32 = 4_294_967_295;

/// Whether a word begins as a number does: by a digit, and by 0 where that is all.
fn begins_number(word: &str) -> bool
    ensures { result ≡ begins_number word.now }
{
    match word.as_bytes() {
        [b'0'] => true,
        [b'1'..=b'9', ..] => true,
        _ => false,
    }
}

/// The number that a word spells, where it lies between these two.
fn number_within(word: &str, least: u64, most: u64) -> Option<u64>
    ensures value { result ≡ number_within least most word.now }
    ensures range { IfSome result (λ number. (least ≤ number) × (number ≤ most)) }
{
    if !begins_number(word) {
        return None;
    }
    match word.parse::<u64>() {
        Ok(number) if least <= number && number <= most => Some(number),
        Ok(_) => None,
        Err(_) => None,
    }
}

/// The budget that a word spells.
fn budget_of(word: &str) -> Option<u64>
    ensures value { result ≡ budget_of word.now }
    ensures range { IfSome result IsBudget }
{
    number_within(word, 1, MOST_BUDGET)
}

/// The budget that is given, or the usual one.
pub fn budget_given(word: Option<&str>) -> Option<u64>
    ensures value { result ≡ budget_given (option_map (λ w. w.now) word.entry) }
    ensures range { IfSome result IsBudget }
{
    match word {
        Some(word) => budget_of(word),
        None => Some(BUDGET),
    }
}

/// The port that a word spells.
pub fn port_of(word: &str) -> Option<u16>
    ensures { result ≡ port_of word.now }
{
    match number_within(word, 0, MOST_PORT) {
        Some(port) => Some(port as u16),
        None => None,
    }
}

/// The number of workers that a word spells.
pub fn workers_of(word: &str) -> Option<u8>
    ensures value { result ≡ workers_of word.now }
    ensures range { IfSome result IsWorkerCount }
{
    match number_within(word, 1, MOST_WORKERS) {
        Some(workers) => Some(workers as u8),
        None => None,
    }
}

/// The number of a drill that a word spells.
pub fn drill_number_of(word: &str) -> Option<u64>
    ensures { result ≡ drill_number_of word.now }
{
    number_within(word, 0, MOST_DRILL)
}

/// The number of links that a word spells.
fn links_of(word: &str) -> Option<u32>
    ensures { result ≡ links_of word.now }
{
    match number_within(word, 1, u64::from(MOST_LINKS)) {
        Some(links) => Some(links as u32),
        None => None,
    }
}

/// The number of links that is given, or the most.
pub fn links_given(word: Option<&str>) -> Option<u32>
    ensures { result ≡ links_given (option_map (λ w. w.now) word.entry) }
{
    match word {
        Some(word) => links_of(word),
        None => Some(MOST_LINKS),
    }
}
