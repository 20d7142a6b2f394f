//! In whose name calls are made if the command line doesn't say it.
ghost use Rattle.std.specs.Prelude.{◌≡◌, codes};
ghost use Rattle.root_runs.specs.Operators.{operator_or, login_operator};

use history::{BadOperator, Operator};

/// The operator of this name, if it is an operator's name, else the other one.
fn operator_or(name: &[u8], other: Operator) -> Operator
    ensures { result ≡ operator_or name.now other }
{
    match Operator::parse(name) {
        Ok(operator) => operator,
        Err(BadOperator) => other,
    }
}

#[tactic(auto, unfolding(history::specs::Operators::is_operator, history::specs::Operators::is_operator_byte))]
fn root() -> Operator
    ensures { result ≡ codes "root" }
{
    match Operator::parse(b"root") {
        Ok(operator) => operator,
        Err(BadOperator) => unreachable!(),
    }
}

/// The operator who is logged in: `SUDO_USER` of the environment, else `LOGNAME`, each if it is an
/// operator's name, else `root`. A variable that isn't set counts as empty.
pub fn login_operator(sudo_user: &[u8], logname: &[u8]) -> Operator
    ensures { result ≡ login_operator sudo_user.now logname.now }
{
    operator_or(sudo_user, operator_or(logname, root()))
}
