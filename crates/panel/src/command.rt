// The command line.
use crate::failure::Failure;
use crate::task::Task;
use crate::usage::{BATCH, CHECK, COMPARE, RULES, SHOW, USAGE};
use crate::words::shown;
use crate::{difference, input, task};
use rules::rule::Rule;
use std::alloc::Global;
use std::str::Split;

// The number that a word is.
fn number(heap: Global, word: &str) -> Result<usize, Failure> {
    match word.parse::<u16>() {
        Ok(number) => Ok(usize::from(number)),
        Err(_) => Err(Failure::Word(shown(heap, word)?, "number of 0 to 65535")),
    }
}

fn byte(numbers: &mut Split<'_, char>) -> Option<u8> {
    numbers.next()?.parse().ok()
}

const RULE: &str = "rule CARE,NEED,SET,CLEAR of four bytes";

// A rule of four numbers with commas between them.
fn rule_of(word: &str) -> Option<Rule> {
    let mut numbers = word.split(',');
    let rule = Rule {
        care: byte(&mut numbers)?,
        need: byte(&mut numbers)?,
        set: byte(&mut numbers)?,
        clear: byte(&mut numbers)?,
    };
    numbers.next().is_none().then_some(rule)
}

fn rules_of(heap: Global, words: &[&str]) -> Result<Vec<Rule>, Failure> {
    let mut rules = Vec::new(heap);
    for word in words {
        match rule_of(word) {
            Some(rule) => rules.push(rule)?,
            None => return Err(Failure::Word(shown(heap, word)?, RULE)),
        }
    }
    Ok(rules)
}

// The bits, the initial state and the rules.
fn on_rules(heap: Global, words: &[&str], task: Task) -> Result<String, Failure> {
    let [bits, initial, rules @ ..] = words else {
        return Err(Failure::Misused);
    };
    let bits = number(heap, bits)?;
    let initial = number(heap, initial)?;
    let rules = rules_of(heap, rules)?;
    task::on_rules(heap, bits, initial, rules.as_slice(), task)
}

fn rules(heap: Global, words: &[&str]) -> Result<String, Failure> {
    match words {
        ["--dot", words @ ..] => on_rules(heap, words, Task::Graph),
        ["--check", condition, words @ ..] => on_rules(heap, words, Task::Check(condition)),
        _ => on_rules(heap, words, Task::List),
    }
}

fn on_file(rt: &HostRuntime, path: &str, task: Task) -> Result<String, Failure> {
    let image = input::image(rt, path)?;
    task::on_image(rt.alloc(), image.as_slice(), task)
}

fn show(rt: &HostRuntime, words: &[&str]) -> Result<String, Failure> {
    match words {
        ["--dot", path] => on_file(rt, path, Task::Graph),
        [path] => on_file(rt, path, Task::List),
        _ => Err(Failure::Misused),
    }
}

fn check(rt: &HostRuntime, words: &[&str]) -> Result<String, Failure> {
    match words {
        [path, condition] => on_file(rt, path, Task::Check(condition)),
        _ => Err(Failure::Misused),
    }
}

fn compare_files(rt: &HostRuntime, old: &str, new: &str) -> Result<String, Failure> {
    let old = input::image(rt, old)?;
    let new = input::image(rt, new)?;
    difference::compare(rt.alloc(), old.as_slice(), new.as_slice())
}

fn compare(rt: &HostRuntime, words: &[&str]) -> Result<String, Failure> {
    match words {
        [old, new] => compare_files(rt, old, new),
        _ => Err(Failure::Misused),
    }
}

// How a command is called.
fn help(heap: Global, name: &str) -> Result<String, Failure> {
    let usage = match name {
        "compare" => COMPARE,
        "check" => CHECK,
        "show" => SHOW,
        "rules" => RULES,
        "batch" => BATCH,
        "--help" => USAGE,
        _ => return Err(Failure::Misused),
    };
    Ok(String::from_str(heap, usage)?)
}

// What a command answers on the words after its name.
fn perform(rt: &HostRuntime, name: &str, words: &[&str]) -> Result<String, Failure> {
    match name {
        "compare" => compare(rt, words),
        "check" => check(rt, words),
        "show" => show(rt, words),
        "rules" => rules(rt.alloc(), words),
        _ => Err(Failure::Misused),
    }
}

// What the command of these words answers.
pub(crate) fn run(rt: &HostRuntime, words: &[&str]) -> Result<String, Failure> {
    match words {
        [name @ "--help", ..] | [name, "--help", ..] => help(rt.alloc(), name),
        [name, words @ ..] => perform(rt, name, words),
        [] => Err(Failure::Misused),
    }
}
