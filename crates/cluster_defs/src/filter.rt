//! What a question to the database asks for.

use cluster_types::sequence::Sequence;
use cluster_types::text::Text;

/// A field of a record.
#[derive(Clone, Copy, Debug, PartialEq, Eq)]
pub enum Field {
    MsgId,
    Number,
    Kind,
    /// The engine of the last attempt.
    Engine,
    State,
    Cause,
}

/// Fields in order.
pub type Fields = Sequence<Field>;

/// A value that a field is tested against.
#[derive(Debug, Drop)]
pub enum Scalar {
    Null,
    Text(Text),
    Number(u64),
}

/// Values to choose from.
pub type Scalars = Sequence<Scalar>;

/// Conditions on a value. All that are there have to hold.
#[derive(Debug, Drop)]
pub struct Conditions {
    /// It is one of these.
    pub among: Option<Scalars>,
    /// It is another than this one.
    pub other_than: Option<Scalar>,
    /// It is below this text or number.
    pub below: Option<Scalar>,
    /// It is above this text or number.
    pub above: Option<Scalar>,
}

/// A test of a value.
#[derive(Debug, Drop)]
pub enum Test {
    /// It is this one.
    Is(Scalar),
    Meets(Conditions),
}

/// The tests of a query, by field.
#[derive(Debug, Drop)]
pub struct Tests {
    pub msg_id: Option<Test>,
    pub number: Option<Test>,
    pub kind: Option<Test>,
    pub engine: Option<Test>,
    pub state: Option<Test>,
    pub cause: Option<Test>,
}

/// A query: which records it finds, and which of their fields are shown.
#[derive(Debug, Drop)]
pub struct Asked {
    pub tests: Tests,
    /// Each at most once.
    pub keys: Fields,
}

/// The words that the keys of an object may be.
#[derive(Clone, Copy, Debug, PartialEq, Eq)]
pub enum Vocabulary {
    /// The names of the fields of a record.
    Fields,
    /// The operators of a test.
    Operators,
}
