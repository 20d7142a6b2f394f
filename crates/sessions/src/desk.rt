//! Jobs that are handed out, and the answers to them.
ghost use Rattle.std.specs.Prelude.{◌≡◌, ◌+◌, ◌↔◌, ◌++◌, ◌∷◌, [], true, false, None, Some, IfOk, IfErr, OnOk, OnErr, length};
ghost use Rattle.sessions.specs.Desks.{answered_at, first_outstanding, outstanding, refusal};
ghost use Rattle.sessions.specs.declared.desk.IssueError.TheVariants as errors;

use crate::names::has_text;
use history::{Operator, Request, RowReply};
use std::alloc::Global;
use std::marker::Model;

/// A request of an operator, with its number, from 1 on.
#[derive(Debug, Drop)]
pub struct Job<O> {
    pub number: u64,
    pub operator: Operator,
    pub request: Request<O>,
}

/// The answer to a job.
#[derive(Debug, Drop)]
pub struct Answered {
    pub number: u64,
    pub operator: Operator,
    pub reply: RowReply,
}

/// Why a job wasn't issued.
#[derive(Clone, Copy, Debug, PartialEq, Eq)]
pub enum IssueError {
    /// The desk is closed.
    Closed,
    OutOfMemory,
}

/// A request that wasn't issued, and why.
#[derive(Debug, Drop)]
pub struct Unissued<O> {
    pub request: Request<O>,
    pub why: IssueError,
}

/// Why an answer is rejected, in the order in which the reasons are checked.
#[derive(Clone, Copy, Debug, PartialEq, Eq)]
pub enum AcceptError {
    /// The job was never issued, or was issued to another operator.
    UnknownJob,
    /// The job has already been answered.
    Double,
}

/// The operator a job was issued to, and whether it has been answered.
#[derive(Clone, Copy, Debug)]
pub struct Issued {
    pub operator: Operator,
    pub is_answered: bool,
}

/// The jobs that were issued, and whether more may be issued. Contracts see the jobs in the order
/// of their numbers.
#[derive(Debug, Drop)]
pub struct Desk {
    issued: Vec<Issued>,
    is_shut: bool,
}

impl Model for Desk {
    ghost use Rattle.std.specs.Prelude.{List, Bool};
    ghost use Rattle.std.specs.Coded.{codes, code_by};
    ghost use Rattle.sessions.specs.declared.desk.Issued.{Issued};
    ghost use Rattle.sessions.specs.Desks.{Jobs, jobs_parts, of_jobs_parts, of_own_jobs_parts};

    ghost Value = { Jobs };

    ghost coded = { code_by (List Issued × Bool) (Prim.hlevel codes) jobs_parts of_jobs_parts of_own_jobs_parts };

    ghost view = { λ desk. record { issued = desk.issued.items; is_shut = desk.is_shut } };
}

impl Desk {
    /// A desk without jobs. Allocates no memory.
    pub fn new(alloc: Global) -> Desk
        ensures { result ≡ record { issued = []; is_shut = false } }
    {
        Desk {
            issued: Vec::new(alloc),
            is_shut: false,
        }
    }

    /// Issues a job for a request, with the next number. If no job is issued, because the desk is
    /// closed or memory ran out, the request is returned and the desk is unchanged.
    pub fn issue<O>(
        &mut self,
        operator: Operator,
        request: Request<O>,
    ) -> Result<Job<O>, Unissued<O>>
        ensures job { IfOk result (λ job. job ≡ record { number = length self.old.issued + 1; operator = operator; request = request }) }
        ensures issued { OnOk result (self.new ≡ record { issued = self.old.issued ++ record { operator = operator; is_answered = false } ∷ []; is_shut = false }) }
        ensures err { OnErr result (self.new ≡ self.old) }
        ensures handed_back { IfErr result (λ left. left.request ≡ request) }
        ensures closed { IfErr result (λ left. (left.why ≡ errors.Closed) ↔ (self.old.is_shut ≡ true)) }
        ensures not_shut { OnOk result (self.old.is_shut ≡ false) }
    {
        if self.is_shut {
            return Err(Unissued {
                request,
                why: IssueError::Closed,
            });
        }
        let job = Issued {
            operator,
            is_answered: false,
        };
        match self.issued.push(job) {
            Ok(()) => Ok(Job {
                number: self.issued.len() as u64,
                operator,
                request,
            }),
            Err(_) => Err(Unissued {
                request,
                why: IssueError::OutOfMemory,
            }),
        }
    }

    /// Accepts the answer to a job, once, from the operator that the job was issued to. A rejected
    /// answer changes nothing.
    pub fn accept(&mut self, answer: &Answered) -> Result<(), AcceptError>
        ensures ok { OnOk result ((refusal self.old.issued answer.now.number answer.now.operator ≡ None) × (self.new ≡ record { issued = answered_at self.old.issued answer.now.number; is_shut = self.old.is_shut })) }
        ensures err { IfErr result (λ why. (refusal self.old.issued answer.now.number answer.now.operator ≡ Some why) × (self.new ≡ self.old)) }
    {
        if answer.number == 0 || answer.number > self.issued.len() as u64 {
            return Err(AcceptError::UnknownJob);
        }
        let place = (answer.number - 1) as usize;
        let job = self.issued[place];
        if !has_text(&job.operator, answer.operator.text()) {
            return Err(AcceptError::UnknownJob);
        }
        if job.is_answered {
            return Err(AcceptError::Double);
        }
        self.issued[place] = Issued {
            operator: job.operator,
            is_answered: true,
        };
        Ok(())
    }

    /// How many jobs have no answer yet.
    pub fn outstanding(&self) -> u64
        ensures { result ≡ outstanding self.now.issued }
    {
        let mut count = 0;
        for job in &self.issued {
            if !job.is_answered {
                count += 1;
            }
        }
        count
    }

    /// The operator of the first job without an answer.
    pub(crate) fn first_outstanding(&self) -> Option<Operator>
        ensures { result ≡ first_outstanding self.now.issued }
    {
        for job in &self.issued {
            if !job.is_answered {
                return Some(job.operator);
            }
        }
        None
    }

    /// Closes the desk: no more jobs are issued. Answers are still accepted.
    pub fn shut(&mut self)
        ensures { self.new ≡ record { issued = self.old.issued; is_shut = true } }
    {
        self.is_shut = true;
    }
}
