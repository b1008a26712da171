// The lines that a shift's text begins with: the roster, the rule, the procedure and a setup for each box.
ghost use Rattle.std.specs.Prelude.{◌≡◌, ◌<◌, IfOk, length, OnOk};
ghost use Rattle.office.specs.Heads.{beat, field as field_of, head, judged, roster as roster_of, setups as setups_of};
ghost use Rattle.office.specs.Reading.{HasRead, begun};
ghost use Rattle.shift.specs.Lines.{left, unless_long};
ghost use Rattle.shift.specs.Lists.{listed};
ghost use Rattle.shift.specs.Told.{told};

use crate::head::Head;
use crate::named_procedure::NamedProcedure;
use crate::named_rule::named_rule;
use agreement::faults::RunFault;
use quorum::rosters::Roster;
use shift::faults::TextFault;
use shift::forms::Form;
use shift::list::Numbers;
use shift::names::{ProcedureName, RuleName};
use shift::reader::Reader;

// The head of the text, read line by line, and nothing more.
pub(crate) fn read_head(reader: &mut Reader<'_>) -> Result<Head, TextFault>
    ensures value { told (begun reader.new) result ≡ unless_long reader.old.text.now (head reader.old.line (left reader.old)) }
    ensures text { reader.new.text ≡ reader.old.text }
{
    let roster = read_roster(reader)?;
    let rule = field::<RuleName>(reader, b"rule")?;
    let procedure = field::<ProcedureName>(reader, b"procedure")?;
    let setups = read_setups(reader, roster)?;
    Ok(Head {
        procedure: NamedProcedure::new(procedure, named_rule(rule, roster)),
        setups,
    })
}

// The roster, which is judged on its own line.
fn read_roster(reader: &mut Reader<'_>) -> Result<Roster, TextFault>
    ensures value { told (λ x. x.boxes) result ≡ unless_long reader.old.text.now (roster_of reader.old.line (left reader.old)) }
    ensures read { HasRead 1 reader.old result reader.new }
{
    let line = reader.due(b"boxes")?;
    let spot = line.spot();
    // a `usize` holds every `u32`
    let boxes = line.read::<u32>()? as usize;
    Ok(judge(boxes).map_err(|fault| (fault, spot))?)
}

// The roster of this number of boxes, or the rule's fault inside the run's.
fn judge(boxes: usize) -> Result<Roster, RunFault>
    ensures { told (λ x. x.boxes) result ≡ judged boxes }
{
    Ok(Roster::new(boxes)?)
}

// A setup for each box of the roster.
#[tactic(auto, using(crate::proofs::Setups::turns, crate::proofs::Setups::all_read))]
fn read_setups(reader: &mut Reader<'_>, roster: Roster) -> Result<Numbers, TextFault>
    ensures value { told listed result ≡ unless_long reader.old.text.now (setups_of roster.boxes reader.old.line (left reader.old)) }
    ensures count { IfOk result (λ ss. length (listed ss) ≡ roster.boxes) }
    ensures read { HasRead roster.boxes reader.old result reader.new }
{
    let mut setups = Numbers::empty();
    for _i in 0..roster.boxes() {
        let setup = field(reader, b"setup")?;
        setups.push(setup).unwrap();
    }
    Ok(setups)
}

// The heard sets of the next line, which is to be a beat, in place of those of the list.
#[tactic(auto, using(crate::proofs::Heads::short))]
pub(crate) fn read_beat(reader: &mut Reader<'_>, heard: &mut Numbers) -> Result<(), TextFault>
    ensures value { told (λ u. listed heard.new) result ≡ unless_long reader.old.text.now (beat reader.old.line (left reader.old)) }
    ensures read { HasRead 1 reader.old result reader.new }
    ensures moves { OnOk result (reader.old.at < reader.new.at) }
{
    reader.due(b"beat")?.read_numbers(heard)
}

// The value of the next line, which is to have the key, by its form.
#[tactic(auto, using(crate::proofs::Heads::short))]
fn field<T: Form>(reader: &mut Reader<'_>, key: &[u8]) -> Result<T, TextFault>
    ensures value { result ≡ unless_long reader.old.text.now (field_of key.now T.form reader.old.line (left reader.old)) }
    ensures read { HasRead 1 reader.old result reader.new }
{
    reader.due(key)?.read()
}
