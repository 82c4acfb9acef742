// What the calls answer as numbers.
#![tactic(auto)]

ghost use Rattle.std.specs.Prelude.{◌≡◌, ◌≤◌, ◌<◌, get_or, take};
ghost use Rattle.base_laws.specs.Lists.{total};
ghost use Rattle.base_model.specs.Answers.{reply_of};
ghost use Rattle.rule_calls.specs.Calls.{judgement_of, record_or};
ghost use Rattle.call_read.specs.Told.{number_in, index_in};
ghost use Rattle.walls_numbers.specs.Numbers.{judged_verdict, judged_ground};
ghost use Rattle.walls_numbers.specs.Lent.{numbers_left};
ghost use Rattle.rule_ranks.specs.Ranks.{ranking_of};
ghost use Rattle.walls_numbers.specs.Ranked.{ranked_answer, ranked_numbers};

use base_model::{Judged, Rank, Record, Refusal};

// The number of an answer, 0 where the call is accepted.
#[tactic(auto, unfolding(base_model::specs::Answers::reply_of, call_read::specs::Told::number_in))]
pub fn number_of<T>(answer: &Result<T, Refusal>) -> u32
    ensures { result ≡ number_in (reply_of answer.now) }
{
    match answer {
        Ok(_) => 0,
        Err(refusal) => u32::from(*refusal),
    }
}

// The index given with an answer, 0 where none is.
#[tactic(auto, unfolding(base_model::specs::Answers::reply_of, base_model::specs::Answers::said_of, base_model::specs::Answers::refusal, call_read::specs::Told::index_in))]
pub fn index_of<T>(answer: &Result<T, Refusal>) -> u32
    ensures { result ≡ index_in (reply_of answer.now) }
{
    match answer {
        Err(Refusal::PlacementInvalid(i)) => *i,
        _ => 0,
    }
}

// Tells what a call answers as numbers: the record is laid where it is accepted, the index is the one given with a refusal, the result
// is the answer's number.
pub fn tell(rec: &mut [u32], reply: Result<Record, Refusal>, index: &mut u32) -> u32
    ensures record { (r : Record) → rec.new ≡ numbers_left (reply_of reply) (record_or r reply) rec.old }
    ensures index { index.new ≡ index_in (reply_of reply) }
    ensures number { result ≡ number_in (reply_of reply) }
{
    walls_record::put_reply(rec, reply);
    *index = index_of(&reply);
    number_of(&reply)
}

// How many points are kept before those of layout k.
pub fn first_point(rec: Record, k: u32) -> u32
    requires { (k < 32) × (total (take k rec.routes) ≤ 1000000) }
    ensures { result ≡ total (take k rec.routes) }
{
    search_rows::kept_points(&rec.routes[..k as usize]) as u32
}

// How many points are kept of layout k.
pub fn point_count(rec: Record, k: u32) -> u32
    requires { k < 32 }
    ensures { result ≡ get_or rec.routes k 0 }
{
    rec.routes[k as usize]
}

// The verdict's number, 0 on a refusal.
#[tactic(auto, unfolding(rule_calls::specs::Calls::judgement_of, walls_numbers::specs::Numbers::judged_verdict))]
pub fn verdict_in(judged: Result<Judged, Refusal>) -> u32
    ensures { result ≡ judged_verdict (judgement_of judged) }
{
    match judged {
        Ok(j) => u32::from(j.verdict),
        Err(_) => 0,
    }
}

// The ground that is left, 0 on a refusal.
#[tactic(auto, unfolding(rule_calls::specs::Calls::judgement_of, walls_numbers::specs::Numbers::judged_ground))]
pub fn ground_in(judged: Result<Judged, Refusal>) -> u32
    ensures { result ≡ judged_ground (judgement_of judged) }
{
    match judged {
        Ok(j) => j.ground,
        Err(_) => 0,
    }
}

// Three numbers that are no rank.
const NO_RANK: Rank = Rank {
    quotient: 0,
    remainder: 0,
    divisor: 0,
};

// The number of a ranking's answer, 0 where there is a rank and where there is none.
#[tactic(auto, unfolding(rule_ranks::specs::Ranks::ranking_of, walls_numbers::specs::Ranked::ranked_answer))]
pub fn rank_answer_in(ranked: Result<Option<Rank>, Refusal>) -> u32
    ensures { result ≡ ranked_answer (ranking_of ranked) }
{
    number_of(&ranked)
}

// The rank, or three zeros.
#[tactic(auto, unfolding(rule_ranks::specs::Ranks::ranking_of, walls_numbers::specs::Ranked::ranked_numbers, walls_numbers::specs::Ranked::no_rank))]
pub fn rank_in(ranked: Result<Option<Rank>, Refusal>) -> Rank
    ensures { result ≡ ranked_numbers (ranking_of ranked) }
{
    match ranked {
        Ok(Some(rank)) => rank,
        _ => NO_RANK,
    }
}
