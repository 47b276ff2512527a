// The calls on the running machine, each with its answer as a reply: keys, rows and scalars are lent and changed in place. Each works on a
// state known to be whole, and one that is turned down changes nothing.
#![tactic(auto)]

ghost use Rattle.std.specs.Prelude.{◌≡◌};
ghost use Rattle.picman.specs.Init.{init};
ghost use Rattle.picman.specs.Get.{get};
ghost use Rattle.picman.specs.Put.{put};
ghost use Rattle.picman.specs.Out.{out};
ghost use Rattle.poc.specs.PictureNumber.{derive};
ghost use Rattle.refp.specs.Lists.{lists};
ghost use Rattle.machine.specs.Step.{on_state, on_lists, derived_reply};
ghost use Rattle.machine.specs.Running.{machine_in, Runs, Makes};

use def::{PutCall, RefpCall};
use derivation::evc_poc_derivation;
use line::{GET_EMPTY_PIC, INIT, OUT_PIC, PUT_PIC, REFP_INIT, Reply, reply_of};
use machine::Scalars;
use machine::fields::derived_reply;
use picman::answer::{get_answer, init_answer, out_answer, put_answer};
use refp::lists_answer;

pub fn init_call(
    keys: &[u64],
    rows: &[u32],
    s: &mut Scalars,
    max_pb_size: u8,
    max_num_ref_pics: u8,
) -> Reply
    requires { Runs keys.now rows.now s.old }
    ensures { let m = machine_in keys.now rows.now s.old in
        Makes result s.new s.old keys.now rows.now keys.now rows.now
        (on_state 1 m (init m.pm max_pb_size max_num_ref_pics)) }
{
    let done = picman::init::init(&mut s.rest, max_pb_size, max_num_ref_pics);
    reply_of(INIT, init_answer(done))
}

pub fn get_call(keys: &mut [u64], rows: &mut [u32], s: &mut Scalars) -> Reply
    requires { Runs keys.old rows.old s.old }
    ensures { let m = machine_in keys.old rows.old s.old in
        Makes result s.new s.old keys.old rows.old keys.new rows.new (on_state 2 m (get m.pm)) }
{
    let leased = picman::get::get(keys, rows, &mut s.rest);
    reply_of(GET_EMPTY_PIC, get_answer(leased))
}

pub fn put_call(keys: &mut [u64], rows: &mut [u32], s: &mut Scalars, call: PutCall) -> Reply
    requires { Runs keys.old rows.old s.old }
    ensures { let m = machine_in keys.old rows.old s.old in
        Makes result s.new s.old keys.old rows.old keys.new rows.new
        (on_state 3 m (put m.pm m.refp call)) }
{
    let placed = picman::put::put(keys, rows, &mut s.rest, call);
    reply_of(PUT_PIC, put_answer(placed))
}

pub fn out_call(keys: &mut [u64], rows: &[u32], s: &mut Scalars) -> Reply
    requires { Runs keys.old rows.now s.old }
    ensures { let m = machine_in keys.old rows.now s.old in
        Makes result s.new s.old keys.old rows.now keys.new rows.now (on_state 4 m (out m.pm)) }
{
    let handed = picman::out::out(keys, &mut s.rest);
    reply_of(OUT_PIC, Ok(out_answer(handed)))
}

pub fn refp_call(keys: &[u64], rows: &mut [u32], s: &mut Scalars, call: RefpCall) -> Reply
    requires { Runs keys.now rows.old s.old }
    ensures { let m = machine_in keys.now rows.old s.old in
        Makes result s.new s.old keys.now rows.old keys.now rows.new
        (on_lists 5 m (lists m.pm m.refp call)) }
{
    let given = filling::refp_init(keys, rows, &mut s.rest, call);
    reply_of(REFP_INIT, lists_answer(given))
}

// The state stays.
pub fn poc_call(s: &mut Scalars, log2_sub_gop_length: u8, tid: u8) -> Reply
    ensures reply { result ≡ derived_reply 6 (derive log2_sub_gop_length tid s.old.poc).answer }
    ensures scalars { let d = derive log2_sub_gop_length tid s.old.poc in
        s.new ≡ record { rest = s.old.rest; poc = d.poc } }
{
    derived_reply(evc_poc_derivation(log2_sub_gop_length, tid, &mut s.poc))
}
