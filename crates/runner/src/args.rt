//! The command line.
ghost use Rattle.std.specs.Prelude.{◌≡◌, ◌+◌, ◌<◌, map};
ghost use Rattle.std.specs.String.{string_bytes};
ghost use Rattle.runner.specs.Args.{args_of, beside_of, operands_of, within, is_first};

use script::parse::number;
use zalloc::MOST_BLOCKS;

/// The options and operands of a command line.
#[derive(Drop)]
pub struct Args {
    /// Whether to stop at the first refused line.
    pub stop: bool,
    /// Whether to run the script beside workers.
    pub workers: bool,
    /// How many blocks the pool has, 1 to `MOST_BLOCKS`.
    pub blocks: u32,
    /// The pool's id, 1 or more.
    pub id: u32,
    /// The index of the word that names the script; None for standard input.
    pub script: Option<usize>,
}

/// Reads the words `[-e] [-w] BLOCKS POOLID [SCRIPT]` (profile), without the program's own name. None for a bad command line. The options come in
/// this order, and a word after POOLID is SCRIPT, whatever it looks like.
pub fn read_args(words: &[String]) -> Option<Args>
    ensures { result ≡ args_of (map string_bytes words.now) }
{
    if is_option(words, "-e") {
        beside(&words[1..], true, 1)
    } else {
        beside(words, false, 0)
    }
}

/// Reads the command line from the option `-w` on, whose index is `first`.
fn beside(words: &[String], stop: bool, first: usize) -> Option<Args>
    requires { first < 2 }
    ensures { result ≡ beside_of stop first (map string_bytes words.now) }
{
    if is_option(words, "-w") {
        operands(&words[1..], stop, true, first + 1)
    } else {
        operands(words, stop, false, first)
    }
}

/// Reads the command line from BLOCKS on, whose index is `first`.
fn operands(words: &[String], stop: bool, workers: bool, first: usize) -> Option<Args>
    requires { first < 3 }
    ensures { result ≡ operands_of stop workers first (map string_bytes words.now) }
{
    let (blocks, id, script) = match words {
        [blocks, id] => (blocks, id, None),
        [blocks, id, _] => (blocks, id, Some(first + 2)),
        _ => return None,
    };
    let blocks = number_within(blocks, MOST_BLOCKS)?;
    let id = number_within(id, u32::MAX)?;
    Some(Args {
        stop,
        workers,
        blocks,
        id,
        script,
    })
}

/// Whether the first word is this one.
fn is_option(words: &[String], option: &str) -> bool
    ensures { result ≡ is_first option.now (map string_bytes words.now) }
{
    match words {
        [first, ..] => first.as_str() == option,
        [] => false,
    }
}

/// The number that a word spells, from 1 to `most`.
fn number_within(word: &String, most: u32) -> Option<u32>
    ensures { result ≡ within most (string_bytes word.now) }
{
    match number(word.as_bytes()) {
        Some(n) if 1 <= n && n <= most => Some(n),
        _ => None,
    }
}
