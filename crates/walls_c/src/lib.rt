// The calls under C names: every value is a number, a slice is a pointer and a length, the placements are lent flat and the search
// record is fifty numbers. Each gives 0 where the call is accepted, else the refusal's number; `index` becomes the index given with
// 15, 0 for any other answer.
#![tactic(auto)]

ghost use Rattle.std.specs.Prelude.{◌≡◌};
ghost use Rattle.ground_rects.specs.Rects.{rect};
ghost use Rattle.rule_layouts.specs.Flat.{inputs_of};
ghost use Rattle.rule_calls.specs.Areas.{work_in, store_in};
ghost use Rattle.base_model.specs.Answers.{reply_of};
ghost use Rattle.rule_calls.specs.Calls.{prepare_call, judge_call, judgement_of};
ghost use Rattle.set_places.specs.Given.{inputs_in};
ghost use Rattle.call_prepare.specs.Prepare.{preparation, preparation_in};
ghost use Rattle.walls_numbers.specs.Numbers.{query_from};
ghost use Rattle.walls_numbers.specs.Left.{prepare_on, cover_on, lift_on, begin_on, step_on, read_on, judge_on};
ghost use Rattle.walls_numbers.specs.Ranked.{rank_on, closer_on};

use base_model::{Bounds, Judged, Limits, Position, Rank, Rect, Refusal, Site};
use call_lengths::{Kept, Work};
use call_prepare::Preparing;
use set_places::{FlatPlaces, Given};

// Prepares a mover, the working areas taken together.
fn prepare_in(
    asked: &Preparing<'_>,
    steps: &[i32],
    baseline: &mut [u8],
    counts: &mut [i32],
    map: &mut [u8],
    queue: &mut [u32],
    predecessors: &mut [u32],
    route: &mut [u32],
) -> Result<(), Refusal>
    ensures { prepare_call steps.now (preparation_in asked.now) baseline.old
        (work_in counts.old map.old queue.old predecessors.old route.old)
        ≡ record {
          answer = reply_of result;
          baseline = baseline.new;
          work = work_in counts.new map.new queue.new predecessors.new route.new;
        } }
{
    let mut work = Work {
        counts,
        map,
        queue,
        predecessors,
        route,
    };
    call_prepare::prepare(asked, steps, baseline, &mut work)
}

// Judges a selection, the working areas taken together.
fn judge_in(
    given: &Given<'_>,
    steps: &[i32],
    selection: &[u16],
    counts: &mut [i32],
    map: &mut [u8],
    queue: &mut [u32],
    predecessors: &mut [u32],
    route: &mut [u32],
) -> Result<Judged, Refusal>
    ensures { judge_call steps.now (inputs_in given.now) selection.now
        (work_in counts.old map.old queue.old predecessors.old route.old)
        ≡ record {
          answer = judgement_of result;
          work = work_in counts.new map.new queue.new predecessors.new route.new;
        } }
{
    let mut work = Work {
        counts,
        map,
        queue,
        predecessors,
        route,
    };
    call_judge::judge(given, steps, selection, &mut work)
}

// Prepares a mover.
#[unsafe(no_mangle)]
pub extern "C" fn hitrovzen_prepare(
    across: u32,
    down: u32,
    cells: &[u8],
    obstacles: &[i32],
    window_left: i32,
    window_top: i32,
    window_right: i32,
    window_bottom: i32,
    start_x: u32,
    start_y: u32,
    end_x: u32,
    end_y: u32,
    mover_left: u32,
    mover_top: u32,
    mover_right: u32,
    mover_bottom: u32,
    steps: &[i32],
    baseline: &mut [u8],
    counts: &mut [i32],
    map: &mut [u8],
    queue: &mut [u32],
    predecessors: &mut [u32],
    route: &mut [u32],
) -> u32
    ensures { prepare_on steps.now
        (preparation across down cells.now obstacles.now
        (rect window_left window_top window_right window_bottom)
        (record { x = start_x; y = start_y }) (record { x = end_x; y = end_y })
        (record { left = mover_left; top = mover_top; right = mover_right; bottom = mover_bottom }))
        baseline.old
        (work_in counts.old map.old queue.old predecessors.old route.old)
        ≡ record {
          answer = result;
          baseline = baseline.new;
          work = work_in counts.new map.new queue.new predecessors.new route.new;
        } }
{
    let window = Rect {
        left: window_left,
        top: window_top,
        right: window_right,
        bottom: window_bottom,
    };
    let start = Position {
        x: start_x,
        y: start_y,
    };
    let end = Position { x: end_x, y: end_y };
    let mover = Bounds {
        left: mover_left,
        top: mover_top,
        right: mover_right,
        bottom: mover_bottom,
    };
    let asked = Preparing {
        across,
        down,
        cells,
        obstacles,
        window,
        start,
        end,
        mover,
    };
    walls_told::number_of(&prepare_in(
        &asked,
        steps,
        baseline,
        counts,
        map,
        queue,
        predecessors,
        route,
    ))
}

// Covers a mover's baseline with a rectangle.
#[unsafe(no_mangle)]
pub extern "C" fn hitrovzen_cover(
    window_left: i32,
    window_top: i32,
    window_right: i32,
    window_bottom: i32,
    mover_left: u32,
    mover_top: u32,
    mover_right: u32,
    mover_bottom: u32,
    rect_left: i32,
    rect_top: i32,
    rect_right: i32,
    rect_bottom: i32,
    baseline: &mut [u8],
) -> u32
    ensures { cover_on
        (rect window_left window_top window_right window_bottom)
        (record { left = mover_left; top = mover_top; right = mover_right; bottom = mover_bottom })
        (rect rect_left rect_top rect_right rect_bottom)
        baseline.old
        ≡ record { answer = result; baseline = baseline.new } }
{
    let window = Rect {
        left: window_left,
        top: window_top,
        right: window_right,
        bottom: window_bottom,
    };
    let mover = Bounds {
        left: mover_left,
        top: mover_top,
        right: mover_right,
        bottom: mover_bottom,
    };
    let rect = Rect {
        left: rect_left,
        top: rect_top,
        right: rect_right,
        bottom: rect_bottom,
    };
    walls_told::number_of(&call_cover::cover(window, mover, rect, baseline))
}

// Lifts the rectangle off again.
#[unsafe(no_mangle)]
pub extern "C" fn hitrovzen_lift(
    window_left: i32,
    window_top: i32,
    window_right: i32,
    window_bottom: i32,
    mover_left: u32,
    mover_top: u32,
    mover_right: u32,
    mover_bottom: u32,
    rect_left: i32,
    rect_top: i32,
    rect_right: i32,
    rect_bottom: i32,
    baseline: &mut [u8],
) -> u32
    ensures { lift_on
        (rect window_left window_top window_right window_bottom)
        (record { left = mover_left; top = mover_top; right = mover_right; bottom = mover_bottom })
        (rect rect_left rect_top rect_right rect_bottom)
        baseline.old
        ≡ record { answer = result; baseline = baseline.new } }
{
    let window = Rect {
        left: window_left,
        top: window_top,
        right: window_right,
        bottom: window_bottom,
    };
    let mover = Bounds {
        left: mover_left,
        top: mover_top,
        right: mover_right,
        bottom: mover_bottom,
    };
    let rect = Rect {
        left: rect_left,
        top: rect_top,
        right: rect_right,
        bottom: rect_bottom,
    };
    walls_told::number_of(&call_cover::lift(window, mover, rect, baseline))
}

// Begins a search. A refusal leaves the numbers of the record as they were; entries past the fiftieth are never written.
#[unsafe(no_mangle)]
pub extern "C" fn hitrovzen_begin(
    window_left: i32,
    window_top: i32,
    window_right: i32,
    window_bottom: i32,
    start_x: u32,
    start_y: u32,
    end_x: u32,
    end_y: u32,
    block_left: u32,
    block_top: u32,
    block_right: u32,
    block_bottom: u32,
    allow_given: u32,
    allow_left: u32,
    allow_top: u32,
    allow_right: u32,
    allow_bottom: u32,
    states: u32,
    results: u32,
    groups: &[u32],
    numbers: &[u32],
    edges: &[i32],
    block_base: &[u8],
    allow_base: &[u8],
    steps: &[i32],
    rec: &mut [u32],
    counts: &mut [i32],
    map: &mut [u8],
    queue: &mut [u32],
    predecessors: &mut [u32],
    route: &mut [u32],
    lists: &mut [u16],
    visited: &mut [u16],
    layouts: &mut [u16],
    points: &mut [u32],
    index: &mut u32,
) -> u32
    ensures { begin_on steps.now
        (inputs_of
        (query_from window_left window_top window_right window_bottom start_x start_y end_x end_y
        block_left block_top block_right block_bottom
        allow_given allow_left allow_top allow_right allow_bottom)
        groups.now numbers.now edges.now block_base.now allow_base.now)
        (record { states = states; results = results }) rec.old
        (work_in counts.old map.old queue.old predecessors.old route.old)
        (store_in lists.old visited.old layouts.old points.old)
        ≡ record {
          answer = result;
          index = index.new;
          numbers = rec.new;
          work = work_in counts.new map.new queue.new predecessors.new route.new;
          store = store_in lists.new visited.new layouts.new points.new;
        } }
{
    let query = walls_given::query_from(
        window_left,
        window_top,
        window_right,
        window_bottom,
        start_x,
        start_y,
        end_x,
        end_y,
        block_left,
        block_top,
        block_right,
        block_bottom,
        allow_given,
        allow_left,
        allow_top,
        allow_right,
        allow_bottom,
    );
    let limits = Limits { states, results };
    let places = FlatPlaces {
        groups,
        numbers,
        edges,
    };
    let given = Given {
        query,
        places,
        block_base,
        allow_base,
    };
    walls_on::begin_on(
        &given,
        limits,
        steps,
        rec,
        counts,
        map,
        queue,
        predecessors,
        route,
        lists,
        visited,
        layouts,
        points,
        index,
    )
}

// Evaluates n sets more, or stops. A refusal leaves the numbers of the record as they were.
#[unsafe(no_mangle)]
pub extern "C" fn hitrovzen_step(
    window_left: i32,
    window_top: i32,
    window_right: i32,
    window_bottom: i32,
    start_x: u32,
    start_y: u32,
    end_x: u32,
    end_y: u32,
    block_left: u32,
    block_top: u32,
    block_right: u32,
    block_bottom: u32,
    allow_given: u32,
    allow_left: u32,
    allow_top: u32,
    allow_right: u32,
    allow_bottom: u32,
    states: u32,
    results: u32,
    groups: &[u32],
    numbers: &[u32],
    edges: &[i32],
    block_base: &[u8],
    allow_base: &[u8],
    steps: &[i32],
    rec: &mut [u32],
    n: u32,
    counts: &mut [i32],
    map: &mut [u8],
    queue: &mut [u32],
    predecessors: &mut [u32],
    route: &mut [u32],
    lists: &mut [u16],
    visited: &mut [u16],
    layouts: &mut [u16],
    points: &mut [u32],
    index: &mut u32,
) -> u32
    ensures { step_on steps.now
        (inputs_of
        (query_from window_left window_top window_right window_bottom start_x start_y end_x end_y
        block_left block_top block_right block_bottom
        allow_given allow_left allow_top allow_right allow_bottom)
        groups.now numbers.now edges.now block_base.now allow_base.now)
        (record { states = states; results = results }) rec.old n
        (work_in counts.old map.old queue.old predecessors.old route.old)
        (store_in lists.old visited.old layouts.old points.old)
        ≡ record {
          answer = result;
          index = index.new;
          numbers = rec.new;
          work = work_in counts.new map.new queue.new predecessors.new route.new;
          store = store_in lists.new visited.new layouts.new points.new;
        } }
{
    let query = walls_given::query_from(
        window_left,
        window_top,
        window_right,
        window_bottom,
        start_x,
        start_y,
        end_x,
        end_y,
        block_left,
        block_top,
        block_right,
        block_bottom,
        allow_given,
        allow_left,
        allow_top,
        allow_right,
        allow_bottom,
    );
    let limits = Limits { states, results };
    let places = FlatPlaces {
        groups,
        numbers,
        edges,
    };
    let given = Given {
        query,
        places,
        block_base,
        allow_base,
    };
    walls_on::step_on(
        &given,
        limits,
        steps,
        rec,
        n,
        counts,
        map,
        queue,
        predecessors,
        route,
        lists,
        visited,
        layouts,
        points,
        index,
    )
}

// Tells where layout k's route stands among the kept points, and how many points it has: two numbers of the points area each. Both 0
// on a refusal.
#[unsafe(no_mangle)]
pub extern "C" fn hitrovzen_read(
    window_left: i32,
    window_top: i32,
    window_right: i32,
    window_bottom: i32,
    start_x: u32,
    start_y: u32,
    end_x: u32,
    end_y: u32,
    block_left: u32,
    block_top: u32,
    block_right: u32,
    block_bottom: u32,
    allow_given: u32,
    allow_left: u32,
    allow_top: u32,
    allow_right: u32,
    allow_bottom: u32,
    states: u32,
    results: u32,
    groups: &[u32],
    numbers: &[u32],
    edges: &[i32],
    block_base: &[u8],
    allow_base: &[u8],
    rec: &[u32],
    k: u32,
    lists: &[u16],
    visited: &[u16],
    layouts: &[u16],
    points: &[u32],
    index: &mut u32,
    first: &mut u32,
    count: &mut u32,
) -> u32
    ensures { read_on
        (inputs_of
        (query_from window_left window_top window_right window_bottom start_x start_y end_x end_y
        block_left block_top block_right block_bottom
        allow_given allow_left allow_top allow_right allow_bottom)
        groups.now numbers.now edges.now block_base.now allow_base.now)
        (record { states = states; results = results }) rec.now k
        (store_in lists.now visited.now layouts.now points.now)
        ≡ record {
          answer = result;
          index = index.new;
          first = first.new;
          count = count.new;
        } }
{
    let query = walls_given::query_from(
        window_left,
        window_top,
        window_right,
        window_bottom,
        start_x,
        start_y,
        end_x,
        end_y,
        block_left,
        block_top,
        block_right,
        block_bottom,
        allow_given,
        allow_left,
        allow_top,
        allow_right,
        allow_bottom,
    );
    let limits = Limits { states, results };
    let places = FlatPlaces {
        groups,
        numbers,
        edges,
    };
    let given = Given {
        query,
        places,
        block_base,
        allow_base,
    };
    let kept = Kept {
        lists,
        visited,
        layouts,
        points,
    };
    walls_on::read_on(&given, limits, rec, k, &kept, index, first, count)
}

// Judges a selection of placements. The verdict is 1 to 7, in the order of RULES 7.7; verdict and ground are 0 on a refusal.
#[unsafe(no_mangle)]
pub extern "C" fn hitrovzen_judge(
    window_left: i32,
    window_top: i32,
    window_right: i32,
    window_bottom: i32,
    start_x: u32,
    start_y: u32,
    end_x: u32,
    end_y: u32,
    block_left: u32,
    block_top: u32,
    block_right: u32,
    block_bottom: u32,
    allow_given: u32,
    allow_left: u32,
    allow_top: u32,
    allow_right: u32,
    allow_bottom: u32,
    groups: &[u32],
    numbers: &[u32],
    edges: &[i32],
    block_base: &[u8],
    allow_base: &[u8],
    steps: &[i32],
    selection: &[u16],
    counts: &mut [i32],
    map: &mut [u8],
    queue: &mut [u32],
    predecessors: &mut [u32],
    route: &mut [u32],
    index: &mut u32,
    verdict: &mut u32,
    ground: &mut u32,
) -> u32
    ensures { judge_on steps.now
        (inputs_of
        (query_from window_left window_top window_right window_bottom start_x start_y end_x end_y
        block_left block_top block_right block_bottom
        allow_given allow_left allow_top allow_right allow_bottom)
        groups.now numbers.now edges.now block_base.now allow_base.now)
        selection.now
        (work_in counts.old map.old queue.old predecessors.old route.old)
        ≡ record {
          answer = result;
          index = index.new;
          verdict = verdict.new;
          ground = ground.new;
          work = work_in counts.new map.new queue.new predecessors.new route.new;
        } }
{
    let query = walls_given::query_from(
        window_left,
        window_top,
        window_right,
        window_bottom,
        start_x,
        start_y,
        end_x,
        end_y,
        block_left,
        block_top,
        block_right,
        block_bottom,
        allow_given,
        allow_left,
        allow_top,
        allow_right,
        allow_bottom,
    );
    let places = FlatPlaces {
        groups,
        numbers,
        edges,
    };
    let given = Given {
        query,
        places,
        block_base,
        allow_base,
    };
    let judged = judge_in(
        &given,
        steps,
        selection,
        counts,
        map,
        queue,
        predecessors,
        route,
    );
    *index = walls_told::index_of(&judged);
    *verdict = walls_told::verdict_in(judged);
    *ground = walls_told::ground_in(judged);
    walls_told::number_of(&judged)
}

// Ranks a placement by the squared distance of its footprint's centre from the entrance: quotient + remainder / divisor. The three are 0
// where there is no rank.
#[unsafe(no_mangle)]
pub extern "C" fn hitrovzen_rank(
    across: u32,
    down: u32,
    first_x: u32,
    first_y: u32,
    second_x: u32,
    second_y: u32,
    radius: u32,
    footprint_left: i32,
    footprint_top: i32,
    footprint_right: i32,
    footprint_bottom: i32,
    quotient: &mut u64,
    remainder: &mut u64,
    divisor: &mut u64,
) -> u32
    ensures { rank_on across down
        (record {
          first = record { x = first_x; y = first_y };
          second = record { x = second_x; y = second_y };
          radius = radius;
        })
        (rect footprint_left footprint_top footprint_right footprint_bottom)
        ≡ record {
          answer = result;
          rank = record { quotient = quotient.new; remainder = remainder.new; divisor = divisor.new };
        } }
{
    let first = Position {
        x: first_x,
        y: first_y,
    };
    let second = Position {
        x: second_x,
        y: second_y,
    };
    let site = Site {
        first,
        second,
        radius,
    };
    let footprint = Rect {
        left: footprint_left,
        top: footprint_top,
        right: footprint_right,
        bottom: footprint_bottom,
    };
    let ranked = call_rank::rank(across, down, site, footprint);
    let rank = walls_told::rank_in(ranked);
    *quotient = rank.quotient;
    *remainder = rank.remainder;
    *divisor = rank.divisor;
    walls_told::rank_answer_in(ranked)
}

// Whether the first rank is closer than the other: 1 if it is, else 0.
#[unsafe(no_mangle)]
pub extern "C" fn hitrovzen_closer(
    quotient: u64,
    remainder: u64,
    divisor: u64,
    other_quotient: u64,
    other_remainder: u64,
    other_divisor: u64,
) -> u32
    ensures { result ≡ closer_on
        (record { quotient = quotient; remainder = remainder; divisor = divisor })
        (record { quotient = other_quotient; remainder = other_remainder; divisor = other_divisor }) }
{
    let rank = Rank {
        quotient,
        remainder,
        divisor,
    };
    let other = Rank {
        quotient: other_quotient,
        remainder: other_remainder,
        divisor: other_divisor,
    };
    u32::from(call_rank::closer(rank, other))
}
