//! What commands do, by their names.

ghost use Rattle.std.specs.Prelude.{◌≡◌, Some, IfNone, IfSome};
ghost use Rattle.zerotrie_words.specs.Tasks.{IsTaskOf, NamesNoTask, task_word};
ghost use Rattle.zerotrie_words.specs.declared.task.Task.{Task};

use clap::ArgMatches;
use zerotrie_sets::Selection;

/// What a trie is asked, each by the command of its name.
#[derive(Clone, Copy)]
pub enum Topic {
    Get,
    Longest,
    Reverse,
    List,
    Search,
    Verify,
    Stats,
    Inspect,
    Code,
}

/// What a command does.
#[derive(Clone, Copy)]
pub enum Task {
    /// It makes a trie.
    Build,
    /// It asks a trie.
    Ask(Topic),
    /// It compares two tries.
    Diff,
    /// It makes a trie of others.
    Combine(Selection),
}

impl Task {
    /// Returns what the command with this name does, or `None` if no command has it.
    fn named(name: &str) -> Option<Self>
        ensures some { IfSome result (λ task. Some name.now ≡ task_word task) }
        ensures none { IfNone result ((task : Task) → Some name.now ≡ task_word task → ⊥) }
    {
        match name {
            "build" => Some(Task::Build),
            "get" => Some(Task::Ask(Topic::Get)),
            "longest" => Some(Task::Ask(Topic::Longest)),
            "reverse" => Some(Task::Ask(Topic::Reverse)),
            "list" => Some(Task::Ask(Topic::List)),
            "search" => Some(Task::Ask(Topic::Search)),
            "diff" => Some(Task::Diff),
            "verify" => Some(Task::Ask(Topic::Verify)),
            "stats" => Some(Task::Ask(Topic::Stats)),
            "inspect" => Some(Task::Ask(Topic::Inspect)),
            "code" => Some(Task::Ask(Topic::Code)),
            "union" => Some(Task::Combine(Selection::Union)),
            "intersect" => Some(Task::Combine(Selection::Intersection)),
            "minus" => Some(Task::Combine(Selection::Difference)),
            _ => None,
        }
    }
}

/// Takes the command that clap found, as what it does and its own words. `None` if there is none,
/// which clap refuses.
pub fn task_in<'a>(matches: &mut ArgMatches<'a>) -> Option<(Task, ArgMatches<'a>)>
    ensures some { IfSome result (λ found. IsTaskOf matches.old found.0 found.1) }
    ensures none { IfNone result (NamesNoTask matches.old) }
{
    let (name, words) = matches.remove_subcommand()?;
    match Task::named(name) {
        Some(task) => Some((task, words)),
        None => None,
    }
}
