// A call as data, made: what a program that reads its calls does with each of them.
#![tactic(auto)]

ghost use Rattle.std.specs.Prelude.{◌≡◌};
ghost use Rattle.rules.specs.declared.Said.TheVariants.{Answered};
ghost use Rattle.rules.specs.Histories.{changing as the_changing, asking as the_asking, call as the_call};
ghost use Rattle.rules.specs.Submission.{submit_capped};
ghost use Rattle.rules.specs.Questions.{estimate_new_capped};
ghost use Rattle.rules.specs.Invariant.{Invariant};

use rules::{Call, Estimate, Flows, Made, Outcome, Said, Submission};

// Makes a call, with the path and the buffer that are lent beside it; most calls use neither. A `match` and no table of functions, for a call is the data of scripts and of histories.
#[tactic(auto, using(crate::proofs::Asked::owners_asked), unfolding(rules::specs::Histories::call))]
pub fn make(flows: Flows, call: Call, path: &[u32], lent: &mut [u32]) -> Made
    requires { Invariant flows }
    ensures exactly { result ≡ (the_call call path.now flows lent.old).made }
    ensures buffer { lent.new ≡ (the_call call path.now flows lent.old).buffer }
    ensures sound { Invariant result.flows }
{
    match call {
        Call::Advance(time) => changing(advance::advance(flows, time, lent)),
        Call::Submit(s) => submit(flows, s, path),
        Call::Cancel(id) => changing(cancel::cancel(flows, id)),
        Call::AddEdge(capacity) => changing(edges::add_edge(flows, capacity)),
        Call::Widen(edge, amount) => changing(edges::widen(flows, edge, amount)),
        Call::TakeCompleted(owner) => changing(collecting::take_completed(flows, owner, lent)),
        Call::OwnersWithCompletions => asking(
            flows,
            Said::Answered(lists::owners_with_completions(flows, lent)),
        ),
        Call::NextCompletionDelay => changing(questions::next_completion_delay(flows)),
        Call::EstimateNew(e) => estimate(flows, e, path),
        Call::Settle => changing(time_left::settle(flows)),
        Call::Remaining(id) => asking(flows, Said::TimeLeft(time_left::remaining(flows, id))),
        Call::MeanInFlight(edge, until) => asking(
            flows,
            Said::Answered(questions::mean_in_flight(flows, edge, until)),
        ),
        Call::Rate(id) => changing(questions::rate(flows, id)),
        Call::Bottleneck(id) => changing(questions::bottleneck(flows, id)),
        Call::Edge(edge) => asking(flows, Said::Edge(questions::edge(flows, edge))),
        Call::Contains(id) => asking(flows, Said::Truth(totals::contains(flows, id))),
        Call::Rounds => asking(flows, Said::Number(totals::rounds(flows))),
    }
}

fn submit(flows: Flows, s: Submission, path: &[u32]) -> Made
    requires { Invariant flows }
    ensures exactly { result ≡ the_changing (submit_capped s.id s.owner path.now s.bytes s.latency s.cap s.time flows) }
    ensures sound { Invariant result.flows }
{
    changing(submission::submit_capped(
        flows, s.id, s.owner, path, s.bytes, s.latency, s.cap, s.time,
    ))
}

fn estimate(flows: Flows, e: Estimate, path: &[u32]) -> Made
    requires { Invariant flows }
    ensures { result ≡ the_asking flows (Answered (estimate_new_capped path.now e.bytes e.latency e.cap flows)) }
{
    let answer = estimates::estimate_new_capped(flows, path, e.bytes, e.latency, e.cap);
    asking(flows, Said::Answered(answer))
}

// What a call with an outcome makes.
fn changing(outcome: Outcome) -> Made
    ensures { result ≡ the_changing outcome }
{
    Made {
        said: Said::Answered(outcome.answer),
        flows: outcome.flows,
    }
}

// What a question that only reads makes.
fn asking(flows: Flows, said: Said) -> Made
    ensures { result ≡ the_asking flows said }
{
    Made { said, flows }
}
