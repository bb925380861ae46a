//! Which interfaces have all types, by what came to their elements. No terms are compared for that: a list of terms
//! stays a list, whatever it meets.

ghost use Rattle.std.specs.Prelude.{◌≡◌, ℕ, map, OnOk, IfOk};
ghost use Rattle.interface_opener.specs.Numbered.{event_of};
ghost use Rattle.free_interfaces.specs.AllTypes.{share_of, put_share, after, all_after, none_yet};

use indexmap::IndexMap;
use interface_opener::Event;
use std::alloc::{AllocError, Global};
use type_terms::NodeId;

/// Of an interface, whether what the elements that ended leave is all types, and whether the union that is under way
/// has all types.
#[derive(Clone, Copy, Debug)]
pub struct Share {
    pub whole: bool,
    pub union: bool,
}

/// Whether a type has all types, whose opening as a term of itself brought these events.
pub(crate) fn has_all_types(alloc: Global, events: &[Event], id: NodeId) -> Result<bool, AllocError>
    ensures { IfOk result (λ all. all ≡ (all_after (map event_of events.now) none_yet id).union) }
{
    let mut shares = IndexMap::new(alloc);
    for event in events {
        happen(&mut shares, event)?;
    }
    Ok(share_at(&shares, id).union)
}

/// Takes what comes to an element.
fn happen(shares: &mut IndexMap<NodeId, Share>, event: &Event) -> Result<(), AllocError>
    ensures { OnOk result ((id : ℕ) → share_of shares.new.entries id
        ≡ after (event_of event.now) (share_of shares.old.entries) id) }
{
    match event {
        Event::Term { .. } => Ok(()),
        Event::Interface { holder, of } => {
            let before = share_at(shares, *holder);
            let joined = share_at(shares, *of);
            let now = Share {
                whole: before.whole,
                union: before.union || joined.whole,
            };
            put(shares, *holder, now)
        }
        Event::Ends { holder } => {
            let before = share_at(shares, *holder);
            let now = Share {
                whole: before.whole && before.union,
                union: false,
            };
            put(shares, *holder, now)
        }
    }
}

/// What an interface has so far. One to which nothing came has all types, and an empty union under way.
fn share_at(shares: &IndexMap<NodeId, Share>, id: NodeId) -> Share
    ensures { result ≡ share_of shares.now.entries id }
{
    match shares.get(&id) {
        Some(share) => *share,
        None => Share {
            whole: true,
            union: false,
        },
    }
}

/// Puts what an interface has.
fn put(shares: &mut IndexMap<NodeId, Share>, id: NodeId, share: Share) -> Result<(), AllocError>
    ensures { OnOk result ((other : ℕ) → share_of shares.new.entries other
        ≡ put_share id share (share_of shares.old.entries) other) }
{
    shares.insert(id, share)?;
    Ok(())
}
