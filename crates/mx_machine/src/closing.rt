//! How an evaluation is closed.
ghost use Rattle.std.specs.Prelude.{◌≡◌, ℕ, []};
ghost use Rattle.mx_answers.specs.Answers.{Evaluation};
ghost use Rattle.mx_memo_laws.specs.Entries.{IsOrdered};
ghost use Rattle.mx_memo.specs.Memos.{Memory};
ghost use Rattle.mx_runs.specs.Runs.{Model as Models};
ghost use Rattle.mx_suspended.specs.Ended.{keeps};
ghost use Rattle.mx_machine.specs.Closing.{HasClosed, IsOver};

use mx_memo::Memo;
use mx_value::refusal::EvalRefusal;
use mx_value::value::Value;

/// Closes an evaluation that began when this stamp was the last given, and has come to this answer:
/// no run is in flight any more, and where the answer keeps nothing, what was computed is dropped.
pub fn close(memo: &mut Memo, since: usize, answer: &Result<Value, EvalRefusal>)
    requires { IsOrdered memo.old }
    ensures { (model : Models) (start : Memory) (ev : Evaluation) (ticks : ℕ) →
        since ≡ start.last → IsOver model start memo.old ev ticks answer.now →
        HasClosed model ev memo.new ticks answer.now }
{
    end_runs(memo);
    if keeps(answer) {
        return;
    }
    memo.roll_back_to(since);
}

/// Ends the runs that are in flight.
fn end_runs(memo: &mut Memo)
    ensures held { memo.new.held ≡ memo.old.held }
    ensures last { memo.new.last ≡ memo.old.last }
    ensures begun { memo.new.begun ≡ [] }
{
    'begun: while let Some(_) = memo.end_last() {}
}

/// Whether what was computed stays held after an answer.
fn keeps(answer: &Result<Value, EvalRefusal>) -> bool
    ensures { result ≡ keeps answer.now }
{
    match answer {
        Ok(_) => true,
        Err(EvalRefusal::Fault { .. } | EvalRefusal::Ring(_)) => true,
        Err(_) => false,
    }
}
