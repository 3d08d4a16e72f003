//! The request of a command line.
ghost use Rattle.std.specs.Prelude.{◌≡◌, ℕ, List, [], IfOk, IfSome, IsNone, drop, map, string_bytes};
ghost use Rattle.command_line.specs.Found.{found_under, operands_name};
ghost use Rattle.command_line.specs.Requests.{bulk_options, words_options, AreDraws, AreWords, Asks, IsBulk, IsDrawn, IsFile, IsGen, Reads};
ghost use Rattle.run_requests.specs.declared.asked.Bulk.{Bulk as Drawn};
ghost use Rattle.run_requests.specs.declared.asked.Draws.{Draws as Drawing};
ghost use Rattle.run_requests.specs.declared.asked.Request.{Request as Asked};
ghost use Rattle.run_requests.specs.declared.asked.WordsArgs.{WordsArgs as Counting};

use crate::matching::matching;
use crate::numbers::number_within;
use crate::options::lanes;
use crate::settings::settings_of;
use clap::ArgMatches;
use line_words::OutOfMemory;
use run_requests::{Bulk, Draws, Request, WordsArgs};
use std::alloc::Global;

static WORDS_OPTIONS: [&str; 5] = ["lanes", "rounds", "slots", "queue", "protect"];

static BULK_OPTIONS: [&str; 1] = ["lanes"];

static NO_OPTIONS: [&str; 0] = [];

/// What the words of a command line ask for. None exactly where they ask for nothing. Linear in the bytes of the words.
pub fn request(alloc: Global, words: &[String]) -> Result<Option<Request>, OutOfMemory>
    ensures found { IfOk result (λ o. IfSome o (Asks (map string_bytes words.now))) }
    ensures exactly { IfOk result (λ o. IsNone o → (asked : Asked) →
        Asks (map string_bytes words.now) asked → ⊥) }
{
    let Some(command) = words.first() else {
        return Ok(None);
    };
    match command.as_str() {
        "words" => match words_args(alloc, words)? {
            Some(args) => Ok(Some(Request::Words(args))),
            None => Ok(None),
        },
        "script" => match one_file(alloc, words)? {
            Some(file) => Ok(Some(Request::Script(file))),
            None => Ok(None),
        },
        "steps" => match one_file(alloc, words)? {
            Some(file) => Ok(Some(Request::Steps(file))),
            None => Ok(None),
        },
        "gen" => match draws(alloc, words)? {
            Some(draws) => Ok(Some(Request::Generate(draws))),
            None => Ok(None),
        },
        "bulk" => match bulk(alloc, words)? {
            Some(bulk) => Ok(Some(Request::Bulk(bulk))),
            None => Ok(None),
        },
        _ => Ok(None),
    }
}

/// The one file after the first word, where no option may stand. None exactly where there isn't one.
fn one_file(alloc: Global, words: &[String]) -> Result<Option<String>, OutOfMemory>
    ensures found { IfOk result (λ o. IfSome o (λ file.
        Reads [] (drop 1 (map string_bytes words.now)) (IsFile (string_bytes file)))) }
    ensures none { IfOk result (λ o. IsNone o → (file : List ℕ) →
        Reads [] (drop 1 (map string_bytes words.now)) (IsFile file) → ⊥) }
{
    let Some(matches) = matching(alloc, NO_OPTIONS.as_slice(), words)? else {
        return Ok(None);
    };
    let operands = matches.get_raw("operand").unwrap_or(&[]);
    if operands.len() != 1 {
        return Ok(None);
    }
    Ok(Some(String::from_str(alloc, operands[0])?))
}

/// The draws of the words after `gen`. None exactly where they mean none.
fn draws(alloc: Global, words: &[String]) -> Result<Option<Draws>, OutOfMemory>
    ensures found { IfOk result (λ o. IfSome o (λ draws.
        Reads [] (drop 1 (map string_bytes words.now)) (IsGen draws))) }
    ensures none { IfOk result (λ o. IsNone o → (draws : Drawing) →
        Reads [] (drop 1 (map string_bytes words.now)) (IsGen draws) → ⊥) }
{
    let Some(matches) = matching(alloc, NO_OPTIONS.as_slice(), words)? else {
        return Ok(None);
    };
    Ok(draws_of(1_000_000, &matches))
}

/// The draws and the lanes of the words after `bulk`. None exactly where they mean none.
fn bulk(alloc: Global, words: &[String]) -> Result<Option<Bulk>, OutOfMemory>
    ensures found { IfOk result (λ o. IfSome o (λ bulk.
        Reads bulk_options (drop 1 (map string_bytes words.now)) (IsBulk bulk))) }
    ensures none { IfOk result (λ o. IsNone o → (bulk : Drawn) →
        Reads bulk_options (drop 1 (map string_bytes words.now)) (IsBulk bulk) → ⊥) }
{
    let Some(matches) = matching(alloc, BULK_OPTIONS.as_slice(), words)? else {
        return Ok(None);
    };
    Ok(bulk_of(&matches))
}

/// The draws of up to 500,000 words, and the lanes, that were found. None exactly where none were.
fn bulk_of(matches: &ArgMatches<'_>) -> Option<Bulk>
    ensures found { IfSome result (IsDrawn matches.now) }
    ensures none { IsNone result → (bulk : Drawn) → IsDrawn matches.now bulk → ⊥ }
{
    let draws = draws_of(500_000, matches)?;
    let lanes = lanes(matches)?;
    Some(Bulk { draws, lanes })
}

/// The draws that the operands mean, with up to so many words. None exactly where they mean none.
fn draws_of(most: u64, matches: &ArgMatches<'_>) -> Option<Draws>
    ensures found { IfSome result (λ draws.
        AreDraws most draws (found_under operands_name matches.now)) }
    ensures none { IsNone result → (draws : Drawing) →
        AreDraws most draws (found_under operands_name matches.now) → ⊥ }
{
    draws_within(most, matches.get_raw("operand").unwrap_or(&[]))
}

fn draws_within(most: u64, operands: &[&str]) -> Option<Draws>
    ensures found { IfSome result (λ draws. AreDraws most draws (map (λ v. v.now) operands.now)) }
    ensures none { IsNone result → (draws : Drawing) →
        AreDraws most draws (map (λ v. v.now) operands.now) → ⊥ }
{
    match operands {
        [seed, words, vocabulary] => Some(Draws {
            seed: number_within(seed, 0, u64::MAX)?,
            words: number_within(words, 0, most)?,
            vocabulary: number_within(vocabulary, 1, 1_000_000)?,
        }),
        _ => None,
    }
}

/// The files and the settings of the words after `words`. None exactly where they mean none.
fn words_args(alloc: Global, words: &[String]) -> Result<Option<WordsArgs>, OutOfMemory>
    ensures found { IfOk result (λ o. IfSome o (λ args.
        Reads words_options (drop 1 (map string_bytes words.now)) (AreWords args))) }
    ensures none { IfOk result (λ o. IsNone o → (args : Counting) →
        Reads words_options (drop 1 (map string_bytes words.now)) (AreWords args) → ⊥) }
{
    let Some(matches) = matching(alloc, WORDS_OPTIONS.as_slice(), words)? else {
        return Ok(None);
    };
    let Some(settings) = settings_of(&matches) else {
        return Ok(None);
    };
    let operands = matches.get_raw("operand").unwrap_or(&[]);
    if operands.is_empty() {
        return Ok(None);
    }
    Ok(Some(WordsArgs {
        names: copied(alloc, operands)?,
        lanes: settings.lanes,
        rounds: settings.rounds,
        slots: settings.slots,
        double: settings.double,
        protect: settings.protect,
    }))
}

fn copied(alloc: Global, texts: &[&str]) -> Result<Vec<String>, OutOfMemory>
    ensures { IfOk result (λ names. map string_bytes names.items ≡ map (λ v. v.now) texts.now) }
{
    let mut names = Vec::new(alloc);
    for text in texts {
        names.push(String::from_str(alloc, text)?)?;
    }
    Ok(names)
}
