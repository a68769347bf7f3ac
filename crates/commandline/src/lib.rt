//! What all programs share: help, the version, the message for a wrong command line, and that for a
//! refusal.

#![tactic(auto)]

ghost use Rattle.std.specs.Prelude.{◌≡◌, true, map, string_bytes, IsSome, IfOk, IfSome, Some};
ghost use Rattle.anyhow.specs.Error.{HasMessage};
ghost use Rattle.refusal.specs.Sentences.{told_text};
ghost use Rattle.clap.specs.Words.{app_of, takes, HasMatchesOf};
ghost use Rattle.commandline.specs.Versions.{versioned};

use anyhow::{anyhow, bail};
use clap::{ArgMatches, Command};
use refusal::Refusal;
use std::env;
use std::env::FillError;
use std::rt::Env;

/// The version of every program.
pub const VERSION: &str = "0.1.0";

/// An environment that does not tell what the program was started as, which may be any bytes.
#[derive(Drop)]
struct Unnamed<'a, R> {
    rt: &'a R,
}

impl<R: Env> Env for Unnamed<'_, R> {
    fn arg(&self, i: usize, buf: &mut [u8]) -> Result<usize, FillError> {
        if i == 0 {
            return Ok(0);
        }
        self.rt.arg(i, buf)
    }

    fn var(&self, name: &str, buf: &mut [u8]) -> Result<usize, FillError> {
        self.rt.var(name, buf)
    }

    fn var_at(&self, i: usize, buf: &mut [u8]) -> Result<usize, FillError> {
        self.rt.var_at(i, buf)
    }
}

/// The words of the command line, of which the first stands for the program's name and is empty.
pub fn words(rt: &(impl Env + AllocGlobal)) -> anyhow::Result<Vec<String>> {
    let unnamed = (Unnamed { rt }, rt.alloc());
    Ok(env::args(&unnamed)?.collect(rt.alloc())?)
}

/// What the words ask of the command, to which the version is added. None where they ask for its
/// help or its version, which is then printed. Words that are wrong are an error, whose message
/// says what is wrong with them.
pub fn asked<'a>(
    rt: &(impl Print + AllocGlobal),
    command: Command<'a>,
    words: &'a [String],
) -> anyhow::Result<Option<ArgMatches<'a>>>
    ensures matches { IfOk result (λ asked. IfSome asked
        (HasMatchesOf (versioned (app_of command.entry)) (map string_bytes words.entry.now))) }
    ensures right { takes (versioned (app_of command.entry)) (map string_bytes words.entry.now) ≡ true →
        IfOk result IsSome }
{
    match command.version(VERSION).try_get_matches_from(words) {
        Ok(matches) => Ok(Some(matches)),
        Err(other) => {
            if other.use_stderr() {
                let text = other.to_string(rt.alloc())?;
                bail!("{}", mistake(text.as_str()));
            }
            rt.print(other)?;
            Ok(None)
        }
    }
}

/// Whether a program without options is to do its work: its help or its version may be asked for in
/// place of it, and is then printed.
pub fn is_to_work(
    rt: &(impl Env + Print + AllocGlobal),
    name: &str,
    about: &str,
    details: &str,
) -> anyhow::Result<bool> {
    let words = words(rt)?;
    let command = Command::new(rt.alloc(), name)
        .about(about)
        .after_help(details);
    Ok(asked(rt, command, words.as_slice())?.is_some())
}

/// A refusal as a program's error: its number and place, and what it says.
pub fn in_words(refusal: Refusal) -> anyhow::Error
    ensures { HasMessage (Some (told_text refusal)) result }
{
    let sentence = refusal.sentence();
    anyhow!("{refusal}: {sentence}")
}

/// What is wrong: the first paragraph of clap's message, without its first word.
fn mistake(message: &str) -> &str {
    let (first, _) = message.split_once("\n\n").unwrap_or((message, ""));
    first.strip_prefix("error: ").unwrap_or(first)
}
