//! What each step tells, as the table of steps says.
ghost use Rattle.action_lock.specs.Views.{spent_view};
ghost use Rattle.action_lock.specs.Steps.{Looks, Enters, Holds, Exits, Backs, Tells, Takes, Releases, Marks, Claims, Shuts, Places, Opens, Ends, splitting, split_off, joined, ticket_off, catching_up};

use crate::home::Home;
use crate::slot::Slot;
use crate::view::View;
use atomic_table::{Join, Play, Split};
use std::marker::PhantomData;

pub(crate) struct Look;

impl<H, S, E> Play<Slot<H, S>, View<E>> for Look {
    ghost then = { Looks };
}

pub(crate) struct Enter<H> {
    home: PhantomData<H>,
}

impl<H: Home> Play<Slot<H, H::Share>, View<H::Entry>> for Enter<H> {
    ghost then = { Enters H.number_of H.share_stands };
}

pub(crate) struct Hold;

impl<H, S, E> Play<Slot<H, S>, View<E>> for Hold {
    ghost then = { Holds };
}

// A reader leaves, or a turn is given back.
pub(crate) struct Exit;

impl<H, S, E> Play<Slot<H, S>, View<E>> for Exit {
    ghost then = { Exits };
}

// An empty slot is given back, and the turn with it.
pub(crate) struct Back;

impl<H, S, E> Play<Slot<H, S>, View<E>> for Back {
    ghost then = { Backs };
}

pub(crate) struct Tell<H> {
    home: PhantomData<H>,
}

impl<H: Home> Play<Slot<H, H::Share>, View<H::Entry>> for Tell<H> {
    ghost then = { Tells H.number_of };
}

// The intent is asked for.
pub(crate) struct Take;

impl<H, S, E> Play<Slot<H, S>, View<E>> for Take {
    ghost then = { Takes };
}

pub(crate) struct Release;

impl<H, S, E> Play<Slot<H, S>, View<E>> for Release {
    ghost then = { Releases };
}

// The pending mark of a place is set.
pub(crate) struct Mark;

impl<H, S, E> Play<Slot<H, S>, View<E>> for Mark {
    ghost then = { Marks };
}

// The first place is shut, if no reader is in by it, and the home value is taken.
pub(crate) struct Claim<H> {
    home: PhantomData<H>,
}

impl<H: Home> Play<Slot<H, H::Share>, View<H::Entry>> for Claim<H> {
    ghost then = { Claims H.number_of H.stands };
}

// Another place is shut, if no reader is in by it.
pub(crate) struct Shut;

impl<H, S, E> Play<Slot<H, S>, View<E>> for Shut {
    ghost then = { Shuts };
}

// An entry is counted.
pub(crate) struct Place<H> {
    home: PhantomData<H>,
}

impl<H: Home> Play<Slot<H, H::Share>, View<H::Entry>> for Place<H> {
    ghost then = { Places H.stands };
}

// A place behind the first is opened.
pub(crate) struct Open;

impl<H, S, E> Play<Slot<H, S>, View<E>> for Open {
    ghost then = { Opens };
}

// The first place is opened, and the home value is given back.
pub(crate) struct End;

impl<H, S, E> Play<Slot<H, S>, View<E>> for End {
    ghost then = { Ends };
}

pub(crate) struct Cut;

impl<E> Split<View<E>> for Cut {
    ghost left = { splitting };

    ghost right = { split_off };
}

pub(crate) struct Glue;

impl<E> Join<View<E>> for Glue {
    ghost both = { joined };

    ghost spent = { spent_view };
}

// A ticket is split off, which changes nothing else.
pub(crate) struct Issue;

impl<E> Split<View<E>> for Issue {
    ghost left = { λ v. v };

    ghost right = { ticket_off };
}

// A ticket is taken in.
pub(crate) struct CatchUp;

impl<E> Join<View<E>> for CatchUp {
    ghost both = { catching_up };

    ghost spent = { spent_view };
}
