//! Runs over files in memory, of which the laws of `zerotrie_run` say what they come to: so their premises can be met.

ghost use Rattle.std.specs.Prelude.{◌≡◌, ◌⊎◌, ◌≤◌, ℕ, List, Option, Some, IfOk};
ghost use Rattle.zerotrie_run.specs.Commands.{Runs};
ghost use Rattle.zerotrie_run.specs.CombinedLaws.{IsCombineRefusedExactly};
ghost use Rattle.zerotrie_run.specs.Laws.{IsRefusedExactly, MakesFile};
ghost use Rattle.zerotrie_run.specs.Runs.{world};
ghost use Rattle.zerotrie_run.specs.Statuses.{number_of};
ghost use Rattle.zerotrie_run.specs.declared.command.Place.TheVariants.{Stream};
ghost use Rattle.zerotrie_run.specs.declared.status.Status.TheVariants.{BadInput, Done, Refused, Taken};
ghost use Rattle.zerotrie_run_tests.specs.Laws.{OpensAsBuilt, OpensAsCombined, story_in};

use crate::memory::MemoryDisk;
use std::alloc::{AllocError, Global};
use std::io::BufWriter;
use zerotrie_files::{Noted, Store};
use zerotrie_run::laws::{
    combine_refused_exactly, combined_opens, made_index_opens, made_opens, refused_exactly,
    unmade_is_refused,
};
use zerotrie_run::{Build, Combine, Command, Question, Status, TrieFile, run};

/// Runs a command, and keeps nothing of what it prints and tells.
fn run_over(
    alloc: Global,
    command: Command<'_>,
    files: &mut Store<MemoryDisk>,
    input: &[u8],
) -> Result<Status, AllocError>
    ensures { IfOk result (λ status. (old : Option (List ℕ)) × (new : Option (List ℕ))
        × Runs command.entry (Some input.now)
        (world (Some (story_in files.old.disk)) old)
        (world (Some (story_in files.new.disk)) new) status) }
{
    let Ok(output) = BufWriter::new(alloc, Vec::new(alloc)) else {
        return Err(AllocError);
    };
    let mut output = Noted::new(output);
    let mut messages = Noted::new(Vec::new(alloc));
    let mut input = Noted::new(input);
    Ok(run(
        alloc,
        command,
        files,
        &mut input,
        &mut output,
        &mut messages,
    ))
}

/// Builds a file. It opens as it was made, and if its input makes none, it is refused, unless something
/// failed.
pub fn builds(
    alloc: Global,
    build: Build<'_>,
    files: &mut Store<MemoryDisk>,
    input: &[u8],
) -> Result<Status, AllocError>
    ensures opens { IfOk result (λ status. status ≡ Done → (build.entry.to ≡ Stream → ⊥)
        → (old : Option (List ℕ)) × (new : Option (List ℕ))
        × OpensAsBuilt build.entry (Some input.now) (world (Some (story_in files.old.disk)) old)
        (world (Some (story_in files.new.disk)) new)) }
    ensures refused { IfOk result (λ status.
        (MakesFile build.entry input.now (story_in files.old.disk) → ⊥)
        → (status ≡ Refused) ⊎ (status ≡ Taken) ⊎ (status ≡ BadInput) ⊎ (3 ≤ number_of status)) }
{
    made_opens();
    made_index_opens();
    unmade_is_refused();
    run_over(alloc, Command::Build(build), files, input)
}

/// Asks a file. It is refused exactly if the file has no answer, unless something failed.
pub fn asks(
    alloc: Global,
    file: TrieFile<'_>,
    question: Question<'_>,
    files: &mut Store<MemoryDisk>,
    input: &[u8],
) -> Result<Status, AllocError>
    ensures { IfOk result (λ status. (old : Option (List ℕ)) × (new : Option (List ℕ))
        × IsRefusedExactly file.entry question.entry input.now (story_in files.old.disk) old new
        status) }
{
    refused_exactly();
    run_over(alloc, Command::Ask(file, question), files, input)
}

/// Makes a file of others. It opens as it was made, and is refused exactly if one of them has no trie,
/// unless something failed.
pub fn combines(
    alloc: Global,
    combine: Combine<'_>,
    files: &mut Store<MemoryDisk>,
    input: &[u8],
) -> Result<Status, AllocError>
    ensures opens { IfOk result (λ status. status ≡ Done → (combine.entry.to ≡ Stream → ⊥)
        → (old : Option (List ℕ)) × (new : Option (List ℕ))
        × OpensAsCombined combine.entry (Some input.now)
        (world (Some (story_in files.old.disk)) old)
        (world (Some (story_in files.new.disk)) new)) }
    ensures refused { IfOk result (IsCombineRefusedExactly combine.entry input.now
        (story_in files.old.disk)) }
{
    combined_opens();
    combine_refused_exactly();
    run_over(alloc, Command::Combine(combine), files, input)
}
