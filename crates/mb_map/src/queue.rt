//! Which replies leave with a frame, and which are held for later ones.
ghost use Rattle.std.specs.Prelude.{◌≡◌, ◌≢◌, ◌≤◌, ◌<◌, ◌+◌, ◌++◌, [], length, map, filter, count_by, vec_len, vec_capacity, All};
ghost use Rattle.std.specs.Option.{option_to_list};
ghost use Rattle.mb_mbap.specs.declared.frame.Frame.{Frame as AFrame};
ghost use Rattle.mb_map.specs.declared.held.Held.{Held as AHeld};
ghost use Rattle.mb_map.specs.Queue.{HaveOwnIds, PassesOn, closer, held_by, held_reply, is_due, is_later};
ghost use Rattle.mb_map.specs.Schedule.{own};

use crate::devices::serve;
use crate::held::Held;
use crate::mapping::Mapping;
use crate::step::Step;
use mb_mbap::Frame;

/// How many replies leave with their own frame by a step.
pub(crate) fn own_count(step: Step) -> usize
    ensures count { (reply : AFrame) → result ≡ length (own step reply) }
    ensures few { result ≤ 2 }
{
    match step {
        Step::Pass => 1,
        Step::Twice => 2,
        Step::Drop | Step::Hold(_) => 0,
    }
}

/// How many replies are held by a step.
pub(crate) fn held_count(step: Step) -> usize
    ensures { (reply : AFrame) → result ≡ length (option_to_list (held_by step reply)) }
{
    match step {
        Step::Hold(_) => 1,
        Step::Pass | Step::Twice | Step::Drop => 0,
    }
}

/// How many of the held replies leave with the next frame.
pub(crate) fn due_count(held: &[Held]) -> usize
    ensures { result ≡ count_by is_due held.now }
{
    held.iter().filter(|held| held.left == 1).count()
}

/// Performs a request, gives out what leaves with its frame, and keeps what is held.
pub(crate) fn pass_on(
    devices: &mut [(u8, Mapping)],
    step: Step,
    held: &mut Vec<Held>,
    frame: &Frame,
    replies: &mut Vec<Frame>,
)
    requires apart { HaveOwnIds devices.old }
    requires step { step ≢ Step.Hold 0 }
    requires left { All (λ (h : AHeld). 0 < h.left) held.old.items }
    requires kept { (reply : AFrame) → vec_len held.old + length (option_to_list (held_by step reply)) ≤ vec_capacity held.old }
    requires empty { replies.old.items ≡ [] }
    requires room { (reply : AFrame) → length (own step reply) + count_by is_due held.old.items ≤ vec_capacity replies.old }
    ensures apart { HaveOwnIds devices.new }
    ensures left { All (λ (h : AHeld). 0 < h.left) held.new.items }
    ensures passed { PassesOn devices.old step held.old.items frame.now devices.new held.new.items replies.new.items }
{
    let reply = serve(devices, frame);
    let waits = give(step, reply, replies);
    give_due(held.as_slice(), replies);
    bring_closer(held);
    if let Some(reply) = waits {
        held.push_reserved(reply);
    }
}

/// Gives out what leaves of a reply with its own frame, and answers what is held of it.
fn give(step: Step, reply: Frame, replies: &mut Vec<Frame>) -> Option<Held>
    requires { vec_len replies.old + length (own step reply) ≤ vec_capacity replies.old }
    ensures given { replies.new.items ≡ replies.old.items ++ own step reply }
    ensures held { result ≡ held_by step reply }
    ensures room { vec_capacity replies.new ≡ vec_capacity replies.old }
{
    match step {
        Step::Pass => replies.push_reserved(reply),
        Step::Drop => {}
        Step::Twice => {
            replies.push_reserved(reply.clone().unwrap());
            replies.push_reserved(reply);
        }
        Step::Hold(left) => return Some(Held { left, reply }),
    }
    None
}

/// Gives out the held replies that leave with the next frame.
fn give_due(held: &[Held], replies: &mut Vec<Frame>)
    requires { vec_len replies.old + count_by is_due held.now ≤ vec_capacity replies.old }
    ensures { replies.new.items ≡ replies.old.items ++ map held_reply (filter is_due held.now) }
{
    for held in held {
        if held.left == 1 {
            replies.push_reserved(held.reply.clone().unwrap());
        }
    }
}

/// Drops the held replies that leave with the next frame, and brings the others closer.
fn bring_closer(held: &mut Vec<Held>)
    requires { All (λ (h : AHeld). 0 < h.left) held.old.items }
    ensures left { All (λ (h : AHeld). 0 < h.left) held.new.items }
    ensures held { held.new.items ≡ map closer (filter is_later held.old.items) }
    ensures len { vec_len held.new ≤ vec_len held.old }
    ensures room { vec_capacity held.new ≡ vec_capacity held.old }
{
    held.retain(|held| held.left != 1);
    count_down(held.as_mut_slice());
}

/// Brings replies one frame closer.
fn count_down(held: &mut [Held])
    requires { All (λ (h : AHeld). 0 < h.left) held.old }
    ensures { held.new ≡ map closer held.old }
{
    for held in held.iter_mut() {
        held.left -= 1;
    }
}

/// Gives out all held replies.
pub(crate) fn give_all(held: &[Held], replies: &mut Vec<Frame>)
    requires { vec_len replies.old + length held.now ≤ vec_capacity replies.old }
    ensures { replies.new.items ≡ replies.old.items ++ map held_reply held.now }
{
    for held in held {
        replies.push_reserved(held.reply.clone().unwrap());
    }
}
