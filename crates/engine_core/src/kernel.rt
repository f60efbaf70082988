//! What an engine evaluates in.

ghost use Rattle.std.specs.Prelude.{◌≡◌, [], IfOk, codes};
ghost use Rattle.arith_eval.specs.Names.{value_in};
ghost use Rattle.cluster_defs.specs.Event.{fault_field};
ghost use Rattle.engine_core.specs.Request.{read_execute};
ghost use Rattle.engine_core.specs.State.{session};
ghost use Rattle.engine_core.specs.Answer.{counted, Replies, Executes, AnswersExecution, kind_of, AnswersContent};

use crate::contents::{executed_content, failed_content, fault_content};
use crate::evaluation::{evaluate, evaluate_all};
use crate::fault::Fault;
use crate::kinds::{RequestKind, kind_of};
use crate::reading::read_execute;
use crate::request::ExecuteRequest;
use arith_eval::namespace::Namespace;
use cluster_defs::fault::{Field, ReadError};
use cluster_types::octets::Octets;
use cluster_types::text::Text;
use std::alloc::{AllocError, Global};

/// The names that requests share, and how many requests were counted.
#[derive(Debug, Drop)]
pub struct Kernel {
    /// One namespace, kept from request to request.
    pub names: Namespace,
    /// The execution count, which stands still at 2^64 - 1.
    pub count: u64,
}

/// The execution count after a request.
fn counted(request: &ExecuteRequest, count: u64) -> u64
    ensures { result ≡ counted request.now count }
{
    if !request.silent && request.store_history {
        count.saturating_add(1)
    } else {
        count
    }
}

/// The field that a fault names, or `content`.
fn fault_field(alloc: Global, fault: ReadError) -> Result<Field, AllocError>
    ensures { IfOk result (λ f. f ≡ fault_field (codes "content") fault) }
{
    match fault {
        ReadError::Missing(field) => Ok(field),
        ReadError::BadField(field) => Ok(field),
        _ => Text::new(alloc, "content"),
    }
}

impl Kernel {
    /// No name has a value, and no request was counted.
    pub fn new(alloc: Global) -> Kernel
        ensures names { result.names ≡ [] }
        ensures count { result.count ≡ 0 }
    {
        Kernel {
            names: Namespace::new(alloc),
            count: 0,
        }
    }

    /// The content of the reply to a request.
    pub fn answer(
        &mut self,
        alloc: Global,
        msg_type: &Text,
        content: &[u8],
    ) -> Result<Octets, AllocError>
        ensures { IfOk result (λ reply. AnswersContent (kind_of msg_type.now) msg_type.now content.now (session self.old) reply (session self.new)) }
    {
        match kind_of(msg_type.as_str()) {
            RequestKind::Execute => self.execute(alloc, content),
            RequestKind::Beat => Octets::new(alloc, content),
            RequestKind::Other => failed_content(
                alloc,
                self.count,
                "NotSupported",
                msg_type.as_str(),
            ),
        }
    }

    /// The content of the reply to an `execute_request`.
    fn execute(&mut self, alloc: Global, content: &[u8]) -> Result<Octets, AllocError>
        ensures { IfOk result (λ reply. AnswersExecution (read_execute content.now) (session self.old) reply (session self.new)) }
    {
        match read_execute(alloc, content) {
            Ok(request) => self.run(alloc, &request),
            Err(ReadError::OutOfMemory) => Err(AllocError),
            Err(fault) => {
                let field = fault_field(alloc, fault)?;
                failed_content(alloc, self.count, "BadContent", field.as_str())
            }
        }
    }

    /// The content of the reply to a request that was read.
    fn run(&mut self, alloc: Global, request: &ExecuteRequest) -> Result<Octets, AllocError>
        ensures count { IfOk result (λ _. self.new.count ≡ counted request.now self.old.count) }
        ensures executes { IfOk result (λ reply. Executes request.now (counted request.now self.old.count) (value_in self.old.names) reply (value_in self.new.names)) }
    {
        self.count = counted(request, self.count);
        let code = evaluate(alloc, request.code.as_str(), &mut self.names)?;
        self.reply(alloc, request, &code)
    }

    /// The content of the reply that tells what the code gave.
    fn reply(
        &mut self,
        alloc: Global,
        request: &ExecuteRequest,
        code: &Result<i64, Fault>,
    ) -> Result<Octets, AllocError>
        ensures count { self.new.count ≡ self.old.count }
        ensures replies { IfOk result (λ reply. Replies code.now request.now self.old.count (value_in self.old.names) reply (value_in self.new.names)) }
    {
        match code {
            Ok(value) => {
                let shown = evaluate_all(
                    alloc,
                    request.user_expressions.as_slice(),
                    &mut self.names,
                )?;
                executed_content(alloc, self.count, shown.as_slice(), *value)
            }
            Err(fault) => fault_content(alloc, self.count, fault),
        }
    }
}
