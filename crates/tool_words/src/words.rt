//! The words of the command line.

ghost use Rattle.std.specs.Prelude.{◌≡◌, ◌≢◌, [], IfErr, IfOk, Some, map, string_bytes};
ghost use Rattle.clap.specs.Words.{fault_of, found_of, kind_of, rows_of, subcommand_of, subcommand_rows_of};
ghost use Rattle.clap.specs.declared.error.kind.ErrorKind.TheVariants.{OutOfMemory};
ghost use Rattle.tool_words.specs.Command.{rvklee_command};
ghost use Rattle.tool_words.specs.Job.{IsWithinLimits, audit_job, bench_job, command_job, explore_job, job_of, replay_job, upgrade_job};
ghost use Rattle.tool_words.specs.Region.{regions_said};
ghost use Rattle.tool_words.specs.Seen.{IsRead, job_seen};

use crate::command::rvklee;
use crate::job::{Exploration, Job, WordsError};
use crate::limit::{NUMBERS, WORKERS, read_budgets, read_said, read_workers};
use crate::region::read_region;
use clap::ArgMatches;
use elf_load::Regions;
use std::alloc::Global;

/// The job that the words ask for, of which the first is the program's name.
pub fn read_words(alloc: Global, words: &[String]) -> Result<Job, WordsError>
    ensures job { IsRead job_seen (job_of (map string_bytes words.now)) result }
    ensures within { IfOk result (λ job. IsWithinLimits (job_seen job)) }
{
    let matches = match_words(alloc, words)?;
    match matches.subcommand() {
        Some((name, found)) => read_command(alloc, name, found),
        None => Err(WordsError::Usage),
    }
}

/// The job of the command of this name, from what `clap` found for it.
fn read_command(alloc: Global, name: &str, found: &ArgMatches<'_>) -> Result<Job, WordsError>
    ensures { IsRead job_seen (command_job (Some (name.now, rows_of (found_of found.now)))) result }
{
    if name == "explore" {
        read_explore(alloc, found)
    } else if name == "replay" {
        read_replay(alloc, found)
    } else if name == "bench" {
        read_bench(alloc, found)
    } else if name == "upgrade" {
        read_upgrade(alloc, found)
    } else if name == "audit" {
        read_audit(alloc, found)
    } else {
        Err(WordsError::Usage)
    }
}

/// What `clap` finds in the words.
fn match_words<'a>(alloc: Global, words: &'a [String]) -> Result<ArgMatches<'a>, clap::Error>
    ensures takes { IfOk result (λ _. fault_of rvklee_command (map string_bytes words.now) ≡ []) }
    ensures finds { IfOk result (λ matches. subcommand_rows_of matches
        ≡ subcommand_of rvklee_command (map string_bytes words.now)) }
    ensures refuses { IfErr result (λ error. kind_of error ≢ OutOfMemory
        → fault_of rvklee_command (map string_bytes words.now) ≢ []) }
{
    rvklee(alloc)?.try_get_matches_from(words)
}

/// The job of `explore`.
fn read_explore(alloc: Global, found: &ArgMatches<'_>) -> Result<Job, WordsError>
    ensures { IsRead job_seen (explore_job (rows_of (found_of found.now))) result }
{
    let (Some(program), Some(out), Some(inputs), Some(budgets), Some(workers)) = (
        found.get_str("PROGRAM"),
        found.get_str("OUT"),
        found.get_raw("INPUT"),
        read_budgets(found),
        read_workers(found),
    ) else {
        return Err(WordsError::Usage);
    };
    let regions = read_regions(alloc, inputs)?;
    Ok(Job::Explore(Exploration {
        program: String::from_str(alloc, program)?,
        out: String::from_str(alloc, out)?,
        regions,
        budgets,
        workers,
    }))
}

/// The job of `replay`.
fn read_replay(alloc: Global, found: &ArgMatches<'_>) -> Result<Job, WordsError>
    ensures { IsRead job_seen (replay_job (rows_of (found_of found.now))) result }
{
    let (Some(program), Some(test)) = (found.get_str("PROGRAM"), found.get_str("TEST")) else {
        return Err(WordsError::Usage);
    };
    Ok(Job::Replay {
        program: String::from_str(alloc, program)?,
        test: String::from_str(alloc, test)?,
    })
}

/// The job of `bench`.
fn read_bench(alloc: Global, found: &ArgMatches<'_>) -> Result<Job, WordsError>
    ensures { IsRead job_seen (bench_job (rows_of (found_of found.now))) result }
{
    let (Some(number), Some(workers), Some(folder)) = (
        read_said(found, "NUMBER", NUMBERS),
        read_said(found, "WORKERS", WORKERS),
        found.get_str("OUT"),
    ) else {
        return Err(WordsError::Usage);
    };
    Ok(Job::Bench {
        number,
        workers,
        out: String::from_str(alloc, folder)?,
    })
}

/// The job of `upgrade`.
fn read_upgrade(alloc: Global, found: &ArgMatches<'_>) -> Result<Job, WordsError>
    ensures { IsRead job_seen (upgrade_job (rows_of (found_of found.now))) result }
{
    let (Some(test), Some(file)) = (found.get_str("TEST"), found.get_str("OUT")) else {
        return Err(WordsError::Usage);
    };
    Ok(Job::Upgrade {
        test: String::from_str(alloc, test)?,
        out: String::from_str(alloc, file)?,
    })
}

/// The job of `audit`.
fn read_audit(alloc: Global, found: &ArgMatches<'_>) -> Result<Job, WordsError>
    ensures { IsRead job_seen (audit_job (rows_of (found_of found.now))) result }
{
    let (Some(program), Some(certificate)) = (found.get_str("PROGRAM"), found.get_str("CERT"))
    else {
        return Err(WordsError::Usage);
    };
    Ok(Job::Audit {
        program: String::from_str(alloc, program)?,
        certificate: String::from_str(alloc, certificate)?,
    })
}

/// The regions that the words name, in their order.
fn read_regions(alloc: Global, words: &[&str]) -> Result<Regions, WordsError>
    ensures { IsRead (λ regions. regions) (regions_said (map (λ word. word.now) words.now)) result }
{
    let mut regions = Vec::with_capacity(alloc, words.len())?;
    for word in words {
        regions.push(read_region(word).ok_or(WordsError::Usage)?)?;
    }
    Ok(Regions::from_vec(regions))
}
