//! A network of elements.
ghost use Rattle.std.specs.Prelude.{◌≡◌, ◌<◌, None, Some, length, slice_get};
ghost use Rattle.network_model.specs.Picking.{PopAt, PushAt, ReadAt, enabled_choices, may_happen};
ghost use Rattle.enabled_events.specs.Moments.{Moment};
ghost use Rattle.net_core.specs.Stepping.{HasStepped, IsFitting, StandsFor, choice_for};
ghost use Rattle.net_core.specs.declared.event.Event.TheVariants as E;

use crate::event::{Event, Stepped};
use crate::moving::{put_at, read_at, take_at};
use elements::Element;
use enabled_events::{mark_pop, mark_push, refresh};
use link_queues::LinkQueues;
use marked_places::MarkedPlaces;
use spl_value::{Item, Items};
use stream_model::React;

/// The elements and links of a network. Which events are enabled is kept up to date.
#[derive(Drop)]
pub struct Net<R> {
    pub(crate) elements: Items<Element<R>>,
    pub(crate) links: LinkQueues,
    pub(crate) marks: MarkedPlaces,
}

impl<R: React> Net<R> {
    fn reads(&self, element: u32) -> bool
        requires stands { (m : Moment) × StandsFor R.spec R.stands self.now m }
        ensures { (m : Moment) → StandsFor R.spec R.stands self.now m → result ≡ may_happen m.net m.state (ReadAt element) }
    {
        let elements = self.elements.len();
        let number = element as usize;
        if number < elements {
            self.marks.is_marked(element)
        } else {
            false
        }
    }

    fn pops(&self, link: u32) -> bool
        requires stands { (m : Moment) × StandsFor R.spec R.stands self.now m }
        ensures { (m : Moment) → StandsFor R.spec R.stands self.now m → result ≡ may_happen m.net m.state (PopAt link) }
    {
        let links = self.links.len();
        if link < links {
            let elements = self.elements.len() as u32;
            self.marks.is_marked(elements + link)
        } else {
            false
        }
    }

    fn pushes(&self, link: u32) -> bool
        requires stands { (m : Moment) × StandsFor R.spec R.stands self.now m }
        ensures { (m : Moment) → StandsFor R.spec R.stands self.now m → result ≡ may_happen m.net m.state (PushAt link) }
    {
        let links = self.links.len();
        if link < links {
            let elements = self.elements.len() as u32;
            self.marks.is_marked(elements + links + link)
        } else {
            false
        }
    }

    /// Whether an event is enabled.
    pub fn enabled(&self, event: Event) -> bool
        requires stands { (m : Moment) × StandsFor R.spec R.stands self.now m }
        ensures { (m : Moment) → StandsFor R.spec R.stands self.now m → result ≡ may_happen m.net m.state (choice_for event) }
    {
        match event {
            Event::Read(element) => self.reads(element),
            Event::Pop(link) => self.pops(link),
            Event::Push(link) => self.pushes(link),
        }
    }

    /// How many events are enabled.
    pub fn enabled_count(&self) -> u32
        requires stands { (m : Moment) × StandsFor R.spec R.stands self.now m }
        ensures { (m : Moment) → StandsFor R.spec R.stands self.now m → result ≡ length (enabled_choices m.net m.state) }
    {
        self.marks.count()
    }

    /// The enabled event with this number: reads by element come first, then pops by link, then pushes by link.
    pub fn enabled_at(&self, n: u32) -> Event
        requires within { (m : Moment) × StandsFor R.spec R.stands self.now m × (n < length (enabled_choices m.net m.state)) }
        ensures { (m : Moment) → StandsFor R.spec R.stands self.now m → slice_get (enabled_choices m.net m.state) n ≡ Some (choice_for result) }
    {
        let place = self.marks.nth(n);
        let elements = self.elements.len() as u32;
        let links = self.links.len();
        if place < elements {
            return Event::Read(place);
        }
        let other = place - elements;
        if other < links {
            return Event::Pop(other);
        }
        Event::Push(other - links)
    }

    fn read(&mut self, element: u32, item: Item) -> Stepped
        requires may { (m : Moment) × StandsFor R.spec R.stands self.old m × IsFitting m (E.Read element) (Some item) }
        ensures { (m : Moment) → StandsFor R.spec R.stands self.old m → IsFitting m (E.Read element) (Some item)
            → HasStepped R.spec R.stands m (E.Read element) (Some item) self.old result self.new }
    {
        if !self.reads(element) {
            return Stepped::NotEnabled;
        }
        let taken = read_at(&mut self.elements, element, item);
        refresh(&self.elements, &self.links, &mut self.marks, element);
        if taken {
            Stepped::Done
        } else {
            Stepped::Memory
        }
    }

    fn pop(&mut self, link: u32) -> Stepped
        requires may { (m : Moment) × StandsFor R.spec R.stands self.old m × IsFitting m (E.Pop link) None }
        ensures { (m : Moment) → StandsFor R.spec R.stands self.old m → IsFitting m (E.Pop link) None
            → HasStepped R.spec R.stands m (E.Pop link) None self.old result self.new }
    {
        if !self.pops(link) {
            return Stepped::NotEnabled;
        }
        let at = self.links.ends(link);
        match self.links.pop(link) {
            None => unreachable!(),
            Some(packet) => {
                let taken = take_at(&mut self.elements, at.to, at.input, packet);
                refresh(&self.elements, &self.links, &mut self.marks, at.to);
                mark_push(&self.elements, &self.links, &mut self.marks, link);
                if taken {
                    Stepped::Done
                } else {
                    Stepped::Memory
                }
            }
        }
    }

    fn push(&mut self, link: u32) -> Stepped
        requires stands { (m : Moment) × StandsFor R.spec R.stands self.old m }
        ensures { (m : Moment) → StandsFor R.spec R.stands self.old m
            → HasStepped R.spec R.stands m (E.Push link) None self.old result self.new }
    {
        if !self.pushes(link) {
            return Stepped::NotEnabled;
        }
        let at = self.links.ends(link);
        match put_at(&mut self.elements, at.from) {
            None => unreachable!(),
            Some(sent) => {
                self.links.push(link, sent.1);
                refresh(&self.elements, &self.links, &mut self.marks, at.from);
                mark_pop(&self.elements, &self.links, &mut self.marks, link);
                mark_push(&self.elements, &self.links, &mut self.marks, link);
                Stepped::Done
            }
        }
    }

    /// Takes an event exactly where it is enabled, a read with the item that is read.
    pub fn step(&mut self, event: Event, read: Option<Item>) -> Stepped
        requires may { (m : Moment) × StandsFor R.spec R.stands self.old m × IsFitting m event read }
        ensures { (m : Moment) → StandsFor R.spec R.stands self.old m → IsFitting m event read
            → HasStepped R.spec R.stands m event read self.old result self.new }
    {
        match event {
            Event::Read(element) => match read {
                Some(item) => self.read(element, item),
                None => unreachable!(),
            },
            Event::Pop(link) => self.pop(link),
            Event::Push(link) => self.push(link),
        }
    }
}
