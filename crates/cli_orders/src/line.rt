//! Parses the command line to an order.

use crate::asm_line::{AsmOrder, asm_order};
use crate::campaign_line::{CampaignOrder, campaign_order};
use crate::debug_line::{DebugOrder, debug_order};
use crate::explore_line::{ExploreOrder, explore_order};
use crate::file_line::{InfoOrder, ListOrder, info_order, list_order};
use crate::lib_line::{LibOrder, lib_order};
use crate::replay_line::{ReplayOrder, replay_order};
use crate::schedule_line::{ScheduleOrder, schedule_order};
use crate::shrink_line::{ShrinkOrder, shrink_order};
use crate::threads_line::{ThreadsOrder, threads_order};
use crate::trace_line::{TraceOrder, trace_order};
use clap::ArgMatches;
use cli_args::{LineFault, RunOrder, match_line, run_order};
use std::alloc::{AllocError, Global};

/// A command with the texts of its arguments.
#[derive(Drop)]
pub enum Order<'a> {
    /// `asm`
    Asm(AsmOrder<'a>),
    /// `list`
    List(ListOrder<'a>),
    /// `info`
    Info(InfoOrder<'a>),
    /// `run`
    Run(RunOrder<'a>),
    /// `debug`
    Debug(DebugOrder<'a>),
    /// `gdb`
    Gdb(DebugOrder<'a>),
    /// `threads`
    Threads(ThreadsOrder<'a>),
    /// `replay`
    Replay(ReplayOrder<'a>),
    /// `lib`
    Lib(LibOrder<'a>),
    /// `campaign`
    Campaign(CampaignOrder<'a>),
    /// `explore`
    Explore(ExploreOrder<'a>),
    /// `schedule`
    Schedule(ScheduleOrder<'a>),
    /// `shrink`
    Shrink(ShrinkOrder<'a>),
    /// `trace`
    Trace(TraceOrder<'a>),
}

// The order of a command whose arguments are all texts, by its name and its matches.
fn plain_order<'a>(name: &str, found: &ArgMatches<'a>) -> Option<Order<'a>> {
    match name {
        "list" => Some(Order::List(list_order(found)?)),
        "info" => Some(Order::Info(info_order(found)?)),
        "run" => Some(Order::Run(run_order(found)?)),
        "debug" => Some(Order::Debug(debug_order(found)?)),
        "gdb" => Some(Order::Gdb(debug_order(found)?)),
        "threads" => Some(Order::Threads(threads_order(found)?)),
        "replay" => Some(Order::Replay(replay_order(found)?)),
        "lib" => Some(Order::Lib(lib_order(found)?)),
        "campaign" => Some(Order::Campaign(campaign_order(found)?)),
        "explore" => Some(Order::Explore(explore_order(found)?)),
        "schedule" => Some(Order::Schedule(schedule_order(found)?)),
        "shrink" => Some(Order::Shrink(shrink_order(found)?)),
        "trace" => Some(Order::Trace(trace_order(found)?)),
        _ => None,
    }
}

// The order in clap's matches.
fn order_of<'a>(alloc: Global, matches: &ArgMatches<'a>) -> Result<Option<Order<'a>>, AllocError> {
    let Some((name, found)) = matches.subcommand() else {
        return Ok(None);
    };
    if name == "asm" {
        return match asm_order(alloc, found)? {
            Some(order) => Ok(Some(Order::Asm(order))),
            None => Ok(None),
        };
    }
    Ok(plain_order(name, found))
}

/// The order that the words give, the first of which is the program's name. Help lists the
/// library's objects by `objects`, their names.
pub fn read_line<'a>(
    alloc: Global,
    words: &'a [&'a str],
    objects: &'a str,
) -> Result<Order<'a>, LineFault> {
    let matches = match_line(alloc, words, objects)?;
    match order_of(alloc, &matches) {
        Ok(Some(order)) => Ok(order),
        Ok(None) => Err(LineFault::NoCommand),
        Err(AllocError) => Err(LineFault::Memory),
    }
}
