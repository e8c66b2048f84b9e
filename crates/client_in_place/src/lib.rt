// The client's events on a record that the host lends: the step by value, and its record stored back.
#![tactic(auto)]

ghost use Rattle.std.specs.Prelude.{◌≡◌};
ghost use Rattle.attempt.specs.Event.{event_in, bytes_in};
ghost use Rattle.attempt.specs.Events.{Reachable};
ghost use Rattle.attempt.specs.Journaled.{journaled_step};
ghost use Rattle.attempt.specs.Step.{answer_reply};

use attempt::{Answer, Attempt, Event};
use client_step::step;
use refusals::Refusal;

// One event on a lent record, which a start handed back and events alone changed since. The answer, its refusals and what
// each of them leaves are those of `step`.
pub fn handle(attempt: &mut Attempt, event: Event) -> Result<Answer, Refusal>
    requires { Reachable attempt.old }
    ensures { (answer_reply result ≡ (journaled_step attempt.old (event_in event.entry) (bytes_in event.entry)).reply) ×
        ((attempt.new ≡ (journaled_step attempt.old (event_in event.entry) (bytes_in event.entry)).attempt) ×
        Reachable attempt.new) }
{
    let stepped = step(*attempt, event);
    *attempt = stepped.attempt;
    stepped.answer
}
