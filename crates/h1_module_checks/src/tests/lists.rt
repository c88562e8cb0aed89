//! Lists of modules by example: the order in which they run, and their keys.
use super::my_filter::SetsMyFilter;
use super::notes::{
    Left, Notes, Notings, add, begun, left_in_request, left_in_request_body, listed,
    nothing_listed, refusal, request, response,
};
use super::noting::{NEVER, Noting, REQUEST_BODY, REQUEST_HEADER};
use h1_error::{Error, ErrorType};
use h1_head::RequestHeader;
use h1_modules::{HeadModule, HttpModuleCtx, HttpModules, NoModules};
use std::marker::Model;
use std::process::Abort;

/// Orders of modules as they are added, their names, and these in the order in which they run.
type Order<'a> = (&'a [i16], &'a [u8], &'a [u8]);

static ORDERS: [Order<'static>; 5] = [
    (&[-32768, 0, 32767], b"abc", b"cba"),
    (&[0, 0, 0], b"abc", b"abc"),
    // The same ten modules, added in three orders.
    (
        &[5, -3, 5, 0, 32767, -32768, 0, 5, -3, 1],
        b"abcdefghij",
        b"eachjdgbif",
    ),
    (
        &[1, -3, 5, 0, -32768, 32767, 0, 5, -3, 5],
        b"jihgfedcba",
        b"ehcajgdibf",
    ),
    (
        &[0, 5, -3, -32768, 1, 5, -3, 32767, 0, 5],
        b"dhbfjaiegc",
        b"ehacjdgbif",
    ),
];

fn orders<'a>() -> &'a [Order<'a>] {
    &ORDERS
}

/// The names that the modules of a list wrote into a body, in the order in which they ran.
fn left_behind(rt: &(impl Abort + AllocGlobal), listed: &Notings) -> Left {
    left_in_request_body(rt, &mut begun(rt, listed), None)
}

/// These modules run so.
fn run_so(rt: &(impl Abort + AllocGlobal), orders: &[i16], names: &[u8], expected: &[u8]) {
    let (error, names) = left_behind(rt, &listed(rt, orders, names));
    assert!(rt; error.is_none());
    assert_eq!(rt; names.as_slice(), expected);
}

#[test]
fn higher_orders_run_first_and_equal_ones_as_added(rt: HostRuntime) {
    for (orders, names, expected) in orders() {
        run_so(&rt, orders, names, expected);
    }
}

/// A filter that counts or sets, of this order and key.
const fn my_filter(counts: bool, order: i16, key: u32) -> HeadModule<SetsMyFilter> {
    HeadModule {
        filter: SetsMyFilter { counts },
        order,
        key,
    }
}

/// A request that went through two modules, an early one that is added last.
fn filtered(
    rt: &(impl Abort + AllocGlobal),
    late: HeadModule<SetsMyFilter>,
    early: HeadModule<SetsMyFilter>,
) -> RequestHeader {
    let mut modules = HttpModules::new(rt.alloc());
    modules.add_module(late).expect(rt, "a first module");
    modules.add_module(early).expect(rt, "a second module");
    let mut context = modules
        .build_ctx(rt.alloc())
        .expect(rt, "the modules of an exchange");
    let mut req = request(rt);
    context
        .request_header_filter(rt.alloc(), &mut req)
        .expect(rt, "no module refuses");
    req
}

/// Two filters set this, of which the late one, and then the early one, counts or doesn't.
fn set_so(rt: &(impl Abort + AllocGlobal), late: bool, early: bool, expected: &[u8]) {
    let req = filtered(rt, my_filter(late, -1, 1), my_filter(early, 1, 2));
    let set = req.get(b"my-filter").expect(rt, "a line of the name");
    assert_eq!(rt; set, expected);
    assert_eq!(rt; req.fields().len(), 1);
}

#[test]
fn a_module_sees_what_the_one_before_it_set(rt: HostRuntime) {
    set_so(&rt, true, true, b"2");
    set_so(&rt, true, false, b"2");
    set_so(&rt, false, true, b"1");
}

#[test]
fn a_second_module_of_a_key_is_refused(rt: HostRuntime) {
    for name in b"ab" {
        let mut listed = listed(&rt, &[0, 1], b"ab");
        let answer = add(&mut listed, Noting::new(2, *name, REQUEST_BODY));
        assert_eq!(rt; answer, Some(Error::from(ErrorType::Duplicate)));
        let (error, names) = left_behind(&rt, &listed);
        assert!(rt; error.is_none());
        assert_eq!(rt; names.as_slice(), b"ba".as_slice());
    }
}

/// The name of the module of the key.
fn name_of(notes: &Notes, key: u32) -> Option<u8> {
    match notes.context.get(key) {
        Some(note) => Some(note.name),
        None => None,
    }
}

/// The filter in which the module of the key refuses.
fn refuses_at(notes: &Notes, key: u32) -> Option<u8> {
    match notes.context.get(key) {
        Some(note) => Some(note.refuses_at),
        None => None,
    }
}

/// Whether there is a module of the key, which then refuses requests from now on.
fn is_made_to_refuse(notes: &mut Notes, key: u32) -> bool {
    match notes.context.get_mut(key) {
        Some(note) => {
            note.refuses_at = REQUEST_HEADER;
            true
        }
        None => false,
    }
}

#[test]
fn a_module_is_found_by_its_key(rt: HostRuntime) {
    let mut notes = begun(&rt, &listed(&rt, &[0, 1], b"ab"));
    assert_eq!(rt; name_of(&notes, 98), Some(b'b'));
    assert!(rt; name_of(&notes, 99).is_none() && !is_made_to_refuse(&mut notes, 99));
    assert!(rt; is_made_to_refuse(&mut notes, 98));
    assert_eq!(rt; refuses_at(&notes, 97), Some(NEVER));
    let (error, names) = left_in_request(&rt, &mut notes);
    assert_eq!(rt; error, Some(refusal(b'b')));
    assert!(rt; names.is_empty());
}

/// A context of no modules. Contracts see nothing of it either.
#[derive(Drop)]
struct Unfiltered {
    context: HttpModuleCtx<NoModules>,
}

impl Model for Unfiltered {
    ghost Value = { Unit {0} };

    ghost view = { λ _. tt };
}

fn made_empty(rt: &impl AllocGlobal) -> Unfiltered {
    let context = HttpModuleCtx::empty(rt.alloc());
    Unfiltered { context }
}

/// A context of a list to which nothing was added.
fn built_of_none(rt: &(impl Abort + AllocGlobal)) -> Unfiltered {
    let modules: HttpModules<NoModules> = HttpModules::new(rt.alloc());
    let context = modules
        .build_ctx(rt.alloc())
        .expect(rt, "the modules of an exchange");
    Unfiltered { context }
}

/// How many lines stand in a request behind the filter.
fn lines_of_request(rt: &(impl Abort + AllocGlobal), context: &mut Unfiltered) -> usize {
    let mut req = request(rt);
    let answer = context.context.request_header_filter(rt.alloc(), &mut req);
    answer.expect(rt, "no module refuses");
    req.fields().len()
}

/// How many lines stand in a response behind the filter.
fn lines_of_response(rt: &(impl Abort + AllocGlobal), context: &mut Unfiltered) -> usize {
    let mut resp = response(rt);
    let answer = context
        .context
        .response_header_filter(rt.alloc(), &mut resp, true);
    answer.expect(rt, "no module refuses");
    resp.fields().len()
}

/// Whether no bodies get bytes of no modules.
fn has_no_bodies(rt: &(impl Abort + AllocGlobal), context: &mut Unfiltered) -> bool {
    let mut body = None;
    let answer = context
        .context
        .request_body_filter(rt.alloc(), &mut body, true);
    answer.expect(rt, "no module refuses");
    let answer = context
        .context
        .response_body_filter(rt.alloc(), &mut body, true);
    answer.expect(rt, "no module refuses");
    body.is_none()
}

/// Whether no modules give a buffer for no trailers, and none at the end.
fn gives_nothing(rt: &(impl Abort + AllocGlobal), context: &mut Unfiltered) -> bool {
    let mut trailers = None;
    let given = context
        .context
        .response_trailer_filter(rt.alloc(), &mut trailers);
    let last = context.context.response_done_filter(rt.alloc());
    given.expect(rt, "no module refuses").is_none()
        && last.expect(rt, "no module refuses").is_none()
}

/// Nothing is changed by this context of no modules.
fn change_nothing(rt: &(impl Abort + AllocGlobal), context: &mut Unfiltered) {
    assert_eq!(rt; lines_of_request(rt, context), 0);
    assert_eq!(rt; lines_of_response(rt, context), 0);
    assert!(rt; has_no_bodies(rt, context) && gives_nothing(rt, context));
    assert!(rt; context.context.is_empty() && context.context.get(0).is_none());
}

#[test]
fn no_modules_change_nothing(rt: HostRuntime) {
    change_nothing(&rt, &mut made_empty(&rt));
    change_nothing(&rt, &mut built_of_none(&rt));
}

#[test]
fn a_list_is_empty_until_a_module_is_added(rt: HostRuntime) {
    assert!(rt; nothing_listed(&rt).modules.is_empty());
    let listed = listed(&rt, &[0], b"a");
    assert!(rt; !listed.modules.is_empty());
    assert!(rt; !begun(&rt, &listed).context.is_empty());
}
