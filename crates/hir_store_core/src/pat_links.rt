//! The links of patterns: by them a walk goes from a pattern to what comes after it, without a stack of the
//! patterns around it.

ghost use Rattle.std.specs.Prelude.{◌≡◌, ◌<◌, ◌≤◌, [], All, length, IfOk};
ghost use Rattle.hir_node.specs.ChildCalls.{child_pats};
ghost use Rattle.hir_store_core.specs.PatLinks.{link_at, HasPatLinks, EachHasOnePlace};
ghost use Rattle.hir_store_core.specs.internal.PatLinks.{link_children};

use hir_node::{Pat, PatId};
use std::alloc::{AllocError, Global};
use std::marker::Model;

/// The step after a pattern.
#[derive(Clone, Copy, Drop)]
pub(crate) enum PatLink {
    /// The next child of the pattern whose child it is.
    Next(PatId),
    /// The pattern whose last child it is.
    Last(PatId),
    /// Nothing: it is no child of a pattern.
    Alone,
}

/// The links of all patterns of a store, modelled as their list. A link takes 8 bytes.
#[derive(Drop)]
pub struct PatLinks {
    links: Vec<PatLink>,
}

impl Model for PatLinks {
    ghost use Rattle.std.specs.Prelude.{List};
    ghost use Rattle.hir_store_core.specs.declared.pat_links.PatLink.{PatLink};

    ghost Value = { List PatLink };

    ghost view = { λ p. p.links.items };
}

impl PatLinks {
    /// Returns the links of these patterns, each of which is a child of at most one pattern, once.
    ///
    /// It takes time in the number of patterns and of their children. It fails with `AllocError` only where
    /// an allocation fails.
    pub fn of(alloc: Global, pats: &[Pat]) -> Result<PatLinks, AllocError>
        requires few { length pats.now ≤ 4294967295 }
        requires one_place { EachHasOnePlace pats.now }
        ensures { IfOk result (λ links. HasPatLinks pats.now links) }
    {
        let mut links = vec![in alloc; PatLink::Alone; pats.len()]?;
        link_all(&mut links, pats);
        Ok(PatLinks { links })
    }

    /// Returns the links of no patterns, without an allocation.
    pub(crate) fn none(alloc: Global) -> PatLinks
        ensures { result ≡ [] }
    {
        PatLinks {
            links: Vec::new(alloc),
        }
    }

    /// Returns the link of a pattern that exists.
    pub(crate) fn link(&self, id: PatId) -> PatLink
        requires { id < length self.now }
        ensures { result ≡ link_at self.now id }
    {
        self.links[id.into_raw() as usize]
    }
}

/// Links the children of all patterns.
fn link_all(links: &mut [PatLink], pats: &[Pat])
    requires few { length pats.now ≤ 4294967295 }
    requires each { length links.old ≡ length pats.now }
    requires one_place { EachHasOnePlace pats.now }
    ensures { HasPatLinks pats.now links.new }
{
    for (id, pat) in pats.iter().enumerate() {
        link_children(links, PatId::from_raw(id as u32), pat);
    }
}

/// Links the children of a pattern: each to the next one, and the last one to the pattern.
fn link_children(links: &mut [PatLink], parent: PatId, pat: &Pat)
    requires { All (λ c. c < length links.old) (child_pats pat.now) }
    ensures { links.new ≡ link_children parent (child_pats pat.now) links.old }
{
    let mut children = pat.child_pats();
    let Some(first) = children.next() else {
        return;
    };
    let mut child = first;
    for next in children {
        links[child.into_raw() as usize] = PatLink::Next(next);
        child = next;
    }
    links[child.into_raw() as usize] = PatLink::Last(parent);
}

impl Clone for PatLinks {
    ghost is_clone = { λ links copy. copy ≡ links };

    fn clone(&self) -> Result<PatLinks, AllocError> {
        Ok(PatLinks {
            links: self.links.clone()?,
        })
    }
}
