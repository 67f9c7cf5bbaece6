//! What the words of the command line ask for: one of the commands with its options, or nothing.
ghost use Rattle.std.specs.Prelude.{IfOk};
ghost use Rattle.edit_commands.specs.inner.Asks.{Asks};

use command_words::{
    CheckWords, ClassedWords, EditWords, FillWords, MakeWords, PanelWords, RulesWords, check_asked,
    classed_asked, edit_asked, fill_asked, make_asked, panel_asked, rules_asked,
};
use foundation::OutOfMemory;
use std::alloc::Global;

/// What words ask for: one of the commands, or nothing.
#[derive(Drop)]
pub(crate) enum Asked<'a> {
    Edit(EditWords<'a>),
    Classed(ClassedWords<'a>),
    Check(CheckWords<'a>),
    Rules(RulesWords<'a>),
    Fill(FillWords<'a>),
    Panel(PanelWords<'a>),
    Make(MakeWords<'a>),
    Nothing,
}

/// What the words ask for, or `Nothing` where they are no command. The readers of the commands' words are
/// tried in turn, and at most one of them accepts. In the contract, `Asks` says that the words ask for
/// this and for nothing else. `Err` for want of memory alone.
pub(crate) fn read_words<'a>(alloc: Global, words: &'a [String]) -> Result<Asked<'a>, OutOfMemory>
    ensures { IfOk result (Asks words.entry.now) }
{
    match edit_asked(alloc, words) {
        Ok(Some(edit)) => return Ok(Asked::Edit(edit)),
        Ok(None) => {}
        Err(OutOfMemory) => return Err(OutOfMemory),
    }
    match classed_asked(alloc, words) {
        Ok(Some(classed)) => return Ok(Asked::Classed(classed)),
        Ok(None) => {}
        Err(OutOfMemory) => return Err(OutOfMemory),
    }
    match check_asked(alloc, words) {
        Ok(Some(check)) => return Ok(Asked::Check(check)),
        Ok(None) => {}
        Err(OutOfMemory) => return Err(OutOfMemory),
    }
    match rules_asked(alloc, words) {
        Ok(Some(rules)) => return Ok(Asked::Rules(rules)),
        Ok(None) => {}
        Err(OutOfMemory) => return Err(OutOfMemory),
    }
    match fill_asked(alloc, words) {
        Ok(Some(fill)) => return Ok(Asked::Fill(fill)),
        Ok(None) => {}
        Err(OutOfMemory) => return Err(OutOfMemory),
    }
    match panel_asked(alloc, words) {
        Ok(Some(panel)) => return Ok(Asked::Panel(panel)),
        Ok(None) => {}
        Err(OutOfMemory) => return Err(OutOfMemory),
    }
    match make_asked(alloc, words) {
        Ok(Some(make)) => Ok(Asked::Make(make)),
        Ok(None) => Ok(Asked::Nothing),
        Err(OutOfMemory) => Err(OutOfMemory),
    }
}
