//! What a store is asked: by the numbers that stand in an instruction, and the parameters that stand on the stack.

ghost use Rattle.std.specs.Prelude.{◌≡◌, ◌<◌, ◌≤◌, [], drop, length, slice_get, IsTrue};
ghost use Rattle.lola_value.specs.Kinds.{is_outcome_of, is_well_formed};
ghost use Rattle.lola_value.specs.Naming.{the_values};
ghost use Rattle.lola_model.specs.Store.{IsRunning, kind_in, no_params, now_of, pane_of, parameters_of, target_of};
ghost use Rattle.lola_model.specs.Typing.{is_kept, is_whole_pane};
ghost use Rattle.lola_model.specs.declared.expr.Access.TheVariants as access;
ghost use Rattle.lola_expr.specs.Machine.{Answers, Folds, Names, top};
ghost use Rattle.lola_value.specs.Shorts.{widened};

use crate::access::{read, window};
use crate::stack::Stack;
use lola_model::expr::Access;
use lola_model::store::StreamStore;
use lola_value::short::{Short, narrow, value_of};
use lola_value::value::Params;

// A function writes zeros over the room of its values when it is entered, and the parameters that are gathered are the largest: so what
// gathers them are functions of their own.

/// Takes so many values off the stack, as parameters.
fn take_params(stack: &mut Stack, count: u32) -> Params
    requires { count ≤ 4 }
    ensures values { the_values result ≡ top count stack.old }
    ensures places { IsTrue (is_well_formed result) }
    ensures rest { stack.new ≡ drop count stack.old }
{
    let mut params = Params::none();
    let mut left = count;
    while left > 0 {
        left -= 1;
        if let Some(v) = stack.pop() {
            let first = value_of(v);
            params = params.led_by(first);
        }
    }
    params
}

/// The value at this step of a stream without parameters. Each way to read is a function of its own, so that the machine keeps no
/// registers for what the store looks up.
#[inline(never)]
pub(crate) fn read_now<S: StreamStore>(store: &S, stream: u32) -> Short
    requires running { IsRunning (S.seen store.now) }
    requires stream { stream < length (S.seen store.now).layout.streams }
    requires none { parameters_of (slice_get (S.seen store.now).layout.streams stream) ≡ [] }
    ensures { Answers (S.remembers store.now) (S.seen store.now) stream access.Direct [] (widened result) }
{
    store.now_alone(stream).short()
}

/// The newest value at this step or before of a stream without parameters.
#[inline(never)]
pub(crate) fn read_newest<S: StreamStore>(store: &S, stream: u32) -> Short
    requires running { IsRunning (S.seen store.now) }
    requires stream { stream < length (S.seen store.now).layout.streams }
    requires none { parameters_of (slice_get (S.seen store.now).layout.streams stream) ≡ [] }
    ensures { Answers (S.remembers store.now) (S.seen store.now) stream access.Hold [] (widened result) }
{
    store.newest_alone(stream).short()
}

/// The k-th value before this step from the newest, from 1, of a stream without parameters.
#[inline(never)]
pub(crate) fn read_back<S: StreamStore>(store: &S, stream: u32, k: u32) -> Short
    requires running { IsRunning (S.seen store.now) }
    requires stream { stream < length (S.seen store.now).layout.streams }
    requires none { parameters_of (slice_get (S.seen store.now).layout.streams stream) ≡ [] }
    requires kept { IsTrue (is_kept (slice_get (S.seen store.now).layout.streams stream) (access.Offset k)) }
    ensures { Answers (S.remembers store.now) (S.seen store.now) stream (access.Offset k) [] (widened result) }
{
    store.back_alone(stream, k).short()
}

/// What an access answers, of the instance that so many values on the stack name, which are taken off.
#[inline(never)]
pub(crate) fn read_at<S: StreamStore>(
    store: &S,
    stream: u32,
    how: Access,
    stack: &mut Stack,
    count: u32,
) -> Short
    requires running { IsRunning (S.seen store.now) }
    requires few { count ≤ 4 }
    requires named { Names (S.seen store.now) stream (top count stack.old) }
    requires kept { IsTrue (is_kept (slice_get (S.seen store.now).layout.streams stream) how) }
    ensures value { Answers (S.remembers store.now) (S.seen store.now) stream how (top count stack.old) (widened result) }
    ensures rest { stack.new ≡ drop count stack.old }
{
    let named = take_params(stack, count);
    narrow(read(store, stream, how, &named))
}

/// What a window answers, over the instance that so many values on the stack name, which are taken off.
#[inline(never)]
pub(crate) fn window_at<S: StreamStore>(
    store: &S,
    number: u32,
    stack: &mut Stack,
    count: u32,
) -> Short
    requires running { IsRunning (S.seen store.now) }
    requires window { number < length (S.seen store.now).layout.windows }
    requires few { count ≤ 4 }
    requires named { Names (S.seen store.now) (target_of (slice_get (S.seen store.now).layout.windows number)) (top count stack.old) }
    requires whole { IsTrue (is_whole_pane (S.seen store.now) (pane_of (slice_get (S.seen store.now).layout.panes number))) }
    ensures value { Folds (S.remembers store.now) (S.seen store.now) number (top count stack.old) (widened result) }
    ensures rest { stack.new ≡ drop count stack.old }
{
    let named = take_params(stack, count);
    narrow(window(store, number, &named))
}
