//! What a record has in its fields.

ghost use Rattle.std.specs.Prelude.{◌≡◌, Option};
ghost use Rattle.cluster_types.specs.declared.verdict.Cause.{Cause};
ghost use Rattle.cluster_types.specs.declared.verdict.Verdict.{Verdict};
ghost use Rattle.cluster_defs.specs.Filter.{kind_name, state_name, engine_value, cause_value, value_of};
ghost use Rattle.db_query.specs.Shown.{shown_as};

use cluster_defs::filter::Field;
use cluster_types::record::Record;
use cluster_types::verdict::{Cause, Verdict};

/// A value, with its text borrowed.
#[derive(Clone, Copy, Debug)]
pub enum Shown<'a> {
    Null,
    Text(&'a str),
    Number(u64),
}

/// The name of the kind of a task.
fn kind_name(direct: bool) -> &'static str
    ensures { result.now ≡ kind_name direct }
{
    if direct { "direct" } else { "task" }
}

/// The name of the state of a task.
fn state_name(settled: Option<(Verdict, Cause)>, running: bool) -> &'static str
    ensures { result.now ≡ state_name settled running }
{
    match settled {
        Some((verdict, _)) => verdict.name(),
        None if running => "running",
        None => "pending",
    }
}

/// An engine, if there was one.
fn engine_shown(engine: Option<u32>) -> Shown<'static>
    ensures { shown_as result ≡ engine_value engine }
{
    match engine {
        Some(number) => Shown::Number(u64::from(number)),
        None => Shown::Null,
    }
}

/// The cause of an end, if there is one.
fn cause_shown(settled: Option<(Verdict, Cause)>) -> Shown<'static>
    ensures { shown_as result ≡ cause_value settled }
{
    match settled {
        Some((_, cause)) => Shown::Text(cause.name()),
        None => Shown::Null,
    }
}

/// What a record has in a field.
pub fn value_in(field: Field, task: &Record) -> Shown<'_>
    ensures { shown_as result ≡ value_of field task.now }
{
    match field {
        Field::MsgId => Shown::Text(task.id.as_str()),
        Field::Number => Shown::Number(task.number),
        Field::Kind => Shown::Text(kind_name(task.direct)),
        Field::Engine => engine_shown(task.engine),
        Field::State => Shown::Text(state_name(task.settled, task.running)),
        Field::Cause => cause_shown(task.settled),
    }
}
