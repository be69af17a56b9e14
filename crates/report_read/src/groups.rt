// The groups of a model, in order.
ghost use Rattle.std.specs.Prelude.{◌≡◌, [], ◌∷◌};
ghost use Rattle.rml_command.specs.Goals.{HasAbout, stage_groups, groups_of};
ghost use Rattle.report_read.specs.Reading.{Reads, IsBeforeFinal, read_head, read_answer, read_said, read_group};
ghost use Rattle.report_read.specs.Reading.{read_groups};

use crate::block::read_block;
use crate::heads::{Standing, head_in};
use crate::reader::Reader;
use base::{Refused, Row};
use printed_report::{PrintedAnswer, PrintedGroup, Unread};
use rml_command::{About, Checked, Stage};

fn read_head(
    reader: &mut Reader,
    checked: &Checked,
    stage: Stage,
    about: About,
) -> Result<Standing, Refused<Unread>>
    ensures { Reads (read_head checked.now (record { stage = stage; about = about }) reader.old) reader.new result }
{
    let Some(head) = head_in(reader.first(), checked, stage, about) else {
        return Err(reader.unread());
    };
    reader.pass();
    Ok(head)
}

fn read_answer(
    reader: &mut Reader,
    checked: &Checked,
    stage: Stage,
    about: About,
    head: Standing,
) -> Result<PrintedAnswer, Refused<Unread>>
    requires { HasAbout checked.now stage about }
    ensures { Reads (read_answer checked.now (record { stage = stage; about = about }) head reader.old) reader.new
        result }
{
    match head {
        Standing::Holds => Ok(PrintedAnswer::Holds),
        Standing::Fails => read_block(reader, checked, stage, about),
        Standing::Undecided => Ok(PrintedAnswer::Undecided),
    }
}

// A head, and what it says.
fn read_said(
    reader: &mut Reader,
    checked: &Checked,
    stage: Stage,
    about: About,
) -> Result<PrintedAnswer, Refused<Unread>>
    requires { HasAbout checked.now stage about }
    ensures { Reads (read_said checked.now (record { stage = stage; about = about }) reader.old) reader.new result }
{
    let head = read_head(reader, checked, stage, about)?;
    let answer = read_answer(reader, checked, stage, about, head)?;
    Ok(answer)
}

fn read_group(
    reader: &mut Reader,
    checked: &Checked,
    stage: Stage,
    about: About,
) -> Result<PrintedGroup, Refused<Unread>>
    requires { HasAbout checked.now stage about }
    ensures { Reads (read_group checked.now (record { stage = stage; about = about }) reader.old) reader.new result }
{
    let line = reader.number();
    let answer = read_said(reader, checked, stage, about)?;
    Ok(PrintedGroup {
        stage,
        about,
        line,
        answer,
    })
}

// One more group behind those that were read.
fn push_group(
    reader: &mut Reader,
    checked: &Checked,
    stage: Stage,
    about: About,
    before: Row<PrintedGroup>,
) -> Result<Row<PrintedGroup>, Refused<Unread>>
    requires { HasAbout checked.now stage about }
    ensures { Reads (read_groups checked.now (record { stage = stage; about = about } ∷ []) before reader.old)
        reader.new result }
{
    let mut groups = before;
    match read_group(reader, checked, stage, about) {
        Ok(group) => {
            groups.push(group)?;
            Ok(groups)
        }
        Err(refused) => {
            drop(groups);
            Err(refused)
        }
    }
}

// The groups of init or an action.
fn read_stage(
    reader: &mut Reader,
    checked: &Checked,
    stage: Stage,
    before: Row<PrintedGroup>,
) -> Result<Row<PrintedGroup>, Refused<Unread>>
    requires { IsBeforeFinal stage }
    ensures { Reads (read_groups checked.now (stage_groups checked.now stage) before reader.old) reader.new result }
{
    let mut groups = push_group(reader, checked, stage, About::Abort, before)?;
    let count = checked.model().conjectures().len() as u32;
    for k in 0..count {
        groups = push_group(reader, checked, stage, About::Conjecture(k), groups)?;
    }
    Ok(groups)
}

/// The groups of a model.
pub fn read_groups(
    reader: &mut Reader,
    checked: &Checked,
) -> Result<Row<PrintedGroup>, Refused<Unread>>
    ensures { Reads (read_groups checked.now (groups_of checked.now) [] reader.old) reader.new result }
{
    let mut groups = read_stage(reader, checked, Stage::Init, Row::new(reader.alloc()))?;
    let count = checked.model().actions().len() as u32;
    for a in 0..count {
        groups = read_stage(reader, checked, Stage::Action(a), groups)?;
    }
    push_group(reader, checked, Stage::Final, About::Abort, groups)
}
