// The shared object: requests and answers, and the queue, the stack and the counter that a request is applied to.
#![tactic(auto)]

ghost use Rattle.std.specs.Prelude.{◌≡◌, ◌≤◌};
ghost use Rattle.object.specs.Paper.{within, kind_number, kind_of, kind_judged, request_code, request_value, request_of, answer_mark, answer_value, least_code, most_code, code_known, value_allowed, least_capacity, most_capacity, capacity_allowed, answer_in_range};
ghost use Rattle.object.specs.Plain.{fresh};
ghost use Rattle.object.specs.Apply.{fresh_object, contents, knows, answered, put_of, take_first_of, take_last_of, take_of, add_of, held_in_range, applied_to, apply_of, as_applied, AppliesPlainly};

use refusal::Refusal;

// What the object byte of a bench file names.
#[derive(Clone, Copy, Debug, PartialEq, Eq)]
pub enum Kind {
    Queue,
    Stack,
    Counter,
}

// Only put and add carry a value.
#[derive(Clone, Copy, Debug, PartialEq, Eq)]
pub enum Request {
    Put(u32),
    Take,
    Add(u32),
}

// A put that is done carries the count of items held after it.
#[derive(Clone, Copy, Debug, PartialEq, Eq)]
pub enum Answer {
    Done(u32),
    Value(u32),
    Empty,
    Full,
}

// The object's storage: the queue and the stack use the first `held` of the 64 places, the counter `sum`. A host hands in any `held`, one out of range
// is refused, and the places past those held are kept as they were: so the array and the count of it stand side by side.
#[derive(Clone, Copy)]
pub struct Object {
    pub items: [u32; 64],
    pub held: u8,
    pub sum: u32,
}

// Whether x is in a range, both ends included.
pub fn between(least: u8, x: u8, most: u8) -> bool
    ensures { result ≡ within least x most }
{
    (least..=most).contains(&x)
}

// The kind of an object byte that was judged by 4. From 2 on it is the counter: callers that have judged the byte need no refusal; others take `Kind::try_from`.
pub fn kind_of(number: u8) -> Kind
    ensures { result ≡ kind_of number }
{
    match number {
        0 => Kind::Queue,
        1 => Kind::Stack,
        _ => Kind::Counter,
    }
}

// An object byte above 2 is refused.
impl TryFrom<u8> for Kind {
    type Error = Refusal;

    ghost try_from_gives = { λ number r. r ≡ kind_judged number };

    fn try_from(number: u8) -> Result<Self, Refusal> {
        match number {
            0 => Ok(Kind::Queue),
            1 => Ok(Kind::Stack),
            2 => Ok(Kind::Counter),
            _ => Err(Refusal::Object),
        }
    }
}

impl From<Kind> for u8 {
    ghost from_gives = { λ kind number. number ≡ kind_number kind };

    fn from(kind: Kind) -> u8 {
        match kind {
            Kind::Queue => 0,
            Kind::Stack => 1,
            Kind::Counter => 2,
        }
    }
}

// The request of a code and a value that were judged by 9. From 2 on it is an add, and a take drops its value: it cannot fail.
pub fn request_of(code: u8, value: u32) -> Request
    ensures { result ≡ request_of code value }
{
    match code {
        0 => Request::Put(value),
        1 => Request::Take,
        _ => Request::Add(value),
    }
}

// A request's two numbers, each by its name, since no `From` says which of them it gives; an answer's are told so too.
pub fn request_code(request: Request) -> u8
    ensures { result ≡ request_code request }
{
    match request {
        Request::Put(_) => 0,
        Request::Take => 1,
        Request::Add(_) => 2,
    }
}

pub fn request_value(request: Request) -> u32
    ensures { result ≡ request_value request }
{
    match request {
        Request::Put(value) | Request::Add(value) => value,
        Request::Take => 0,
    }
}

pub fn answer_mark(answer: Answer) -> u8
    ensures { result ≡ answer_mark answer }
{
    match answer {
        Answer::Done(_) => 0,
        Answer::Value(_) => 1,
        Answer::Empty => 2,
        Answer::Full => 3,
    }
}

pub fn answer_value(answer: Answer) -> u32
    ensures { result ≡ answer_value answer }
{
    match answer {
        Answer::Done(value) | Answer::Value(value) => value,
        Answer::Empty | Answer::Full => 0,
    }
}

// The codes that a kind knows reach from the least to the most.
pub fn least_code(kind: Kind) -> u8
    ensures { result ≡ least_code kind }
{
    match kind {
        Kind::Queue | Kind::Stack => 0,
        Kind::Counter => 2,
    }
}

pub fn most_code(kind: Kind) -> u8
    ensures { result ≡ most_code kind }
{
    match kind {
        Kind::Queue | Kind::Stack => 1,
        Kind::Counter => 2,
    }
}

pub fn code_known(kind: Kind, code: u8) -> bool
    ensures { result ≡ code_known kind code }
{
    between(least_code(kind), code, most_code(kind))
}

// The greatest value of a put, of a take and of an add.
const MOST_VALUES: [u32; 3] = [u32::MAX, 0, u32::MAX];

// A take's value is 0. Looked up and not tested: a test of the code is a jump, which a processor may guess wrong where puts and takes change often.
pub fn value_allowed(code: u8, value: u32) -> bool
    ensures { result ≡ value_allowed code value }
{
    let place = usize::from(code);
    if place < MOST_VALUES.len() {
        return value <= MOST_VALUES[place];
    }
    true
}

// The capacities that a kind allows reach from the least to the most.
pub fn least_capacity(kind: Kind) -> u8
    ensures { result ≡ least_capacity kind }
{
    match kind {
        Kind::Queue | Kind::Stack => 1,
        Kind::Counter => 0,
    }
}

pub fn most_capacity(kind: Kind) -> u8
    ensures { result ≡ most_capacity kind }
{
    match kind {
        Kind::Queue | Kind::Stack => 64,
        Kind::Counter => 0,
    }
}

pub fn capacity_allowed(kind: Kind, capacity: u8) -> bool
    ensures { result ≡ capacity_allowed kind capacity }
{
    between(least_capacity(kind), capacity, most_capacity(kind))
}

// A done count is 1 to the capacity; every other answer is in range.
pub fn answer_in_range(capacity: u8, answer: Answer) -> bool
    ensures { result ≡ answer_in_range capacity answer }
{
    match answer {
        Answer::Done(count) => (1..=u32::from(capacity)).contains(&count),
        Answer::Value(_) | Answer::Empty | Answer::Full => true,
    }
}

// The object as it is at the start.
pub fn fresh() -> Object
    ensures { (result ≡ fresh_object) × (contents result ≡ fresh) }
{
    Object {
        items: [0; 64],
        held: 0,
        sum: 0,
    }
}

// A capacity that the object allows, and no more items held than that.
pub fn held_in_range(kind: Kind, capacity: u8, held: u8) -> bool
    ensures { result ≡ held_in_range kind capacity held }
{
    capacity_allowed(kind, capacity) && held <= capacity
}

fn put(capacity: u8, value: u32, object: Object) -> (Answer, Object)
    requires { capacity ≤ 64 }
    ensures { answered result.0 result.1 ≡ put_of capacity value object }
{
    let held = object.held;
    if held < capacity {
        let mut after = object;
        after.items[usize::from(held)] = value;
        after.held += 1;
        let count = u32::from(after.held);
        return (Answer::Done(count), after);
    }
    (Answer::Full, object)
}

// The items after the first move down by one.
fn take_first(object: Object) -> (Answer, Object)
    requires { object.held ≤ 64 }
    ensures { answered result.0 result.1 ≡ take_first_of object }
{
    if object.held == 0 {
        return (Answer::Empty, object);
    }
    let mut after = object;
    after.items.copy_within(1..usize::from(object.held), 0);
    after.held -= 1;
    (Answer::Value(object.items[0]), after)
}

fn take_last(object: Object) -> (Answer, Object)
    requires { object.held ≤ 64 }
    ensures { answered result.0 result.1 ≡ take_last_of object }
{
    if object.held == 0 {
        return (Answer::Empty, object);
    }
    let held = object.held - 1;
    (
        Answer::Value(object.items[usize::from(held)]),
        Object { held, ..object },
    )
}

// The counter knows no take.
fn take(kind: Kind, object: Object) -> Result<(Answer, Object), Refusal>
    requires { object.held ≤ 64 }
    ensures { as_applied object result ≡ take_of kind object }
{
    match kind {
        Kind::Queue => Ok(take_first(object)),
        Kind::Stack => Ok(take_last(object)),
        Kind::Counter => Err(Refusal::Request),
    }
}

fn add(value: u32, object: Object) -> (Answer, Object)
    ensures { answered result.0 result.1 ≡ add_of value object }
{
    let sum = object.sum.wrapping_add(value);
    (Answer::Value(object.sum), Object { sum, ..object })
}

// A request that the object knows.
pub fn knows(kind: Kind, request: Request) -> bool
    ensures { result ≡ knows kind request }
{
    code_known(kind, request_code(request))
}

// A request to an object in range. One match of kind and request together has no rule of the borrow checker, so what the kind knows is tested first.
fn applied_to(
    kind: Kind,
    capacity: u8,
    request: Request,
    object: Object,
) -> Result<(Answer, Object), Refusal>
    requires { (capacity ≤ 64) × (object.held ≤ 64) }
    ensures { as_applied object result ≡ applied_to kind capacity request object }
{
    if !knows(kind, request) {
        return Err(Refusal::Request);
    }
    match request {
        Request::Put(value) => Ok(put(capacity, value, object)),
        Request::Take => take(kind, object),
        Request::Add(value) => Ok(add(value, object)),
    }
}

// A request applied to the object: its answer and the object after it. Capacity and items held are judged first, then the request. Kind and capacity stand
// beside the object, as in a state.
pub fn apply(
    kind: Kind,
    capacity: u8,
    object: Object,
    request: Request,
) -> Result<(Answer, Object), Refusal>
    ensures value { as_applied object result ≡ apply_of kind capacity object request }
    ensures applies_plainly { AppliesPlainly kind capacity object request (as_applied object result) }
{
    if !held_in_range(kind, capacity, object.held) {
        return Err(Refusal::OutOfRange);
    }
    applied_to(kind, capacity, request, object)
}
