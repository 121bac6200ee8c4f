//! A search for the levels that messages have room for, those with the shortest way first. Nothing is proved of its result:
//! rounds begin with it and run until nothing changes.
use crate::graph::{Exits, Level, Step, Ways};
use std::alloc::{AllocError, Global};
use std::cmp::Reverse;
use std::collections::{BinaryHeap, HashMap, HashSet};
use std::mem;

/// An event of a search. A level is named by the place of its group, or `None` for the start.
#[derive(Clone, Copy)]
enum Event {
    /// The level of a group.
    Enter(usize),
    /// The AVPs that come through a level's wildcard.
    Open(Option<usize>),
}

/// The way to an AVP that is the best so far.
#[derive(Clone, Copy)]
struct Known {
    length: u64,
    /// Whether it goes through a wildcard.
    wild: bool,
    /// The group whose level holds the AVP.
    group: Option<usize>,
}

impl Known {
    /// Whether this way is shorter than the other; or as long, and by rules alone where the other isn't.
    fn is_nearer(&self, other: &Known) -> bool {
        self.length < other.length || (self.length == other.length && !self.wild && other.wild)
    }
}

/// A search over the levels of groups.
#[derive(Drop)]
struct Search<'a> {
    ways: Ways<'a>,
    /// The best way that is known to each AVP.
    nearest: Vec<Option<Known>>,
    /// The levels that were visited, with their ways. Their `outer` isn't set yet.
    steps: Vec<Step>,
    entered: HashSet<usize>,
    /// The places of the AVPs that no wildcard has let in yet.
    rest: Vec<usize>,
    events: Vec<Event>,
    /// The lengths and the numbers of the events that are to come.
    waiting: BinaryHeap<Reverse<(u64, usize)>>,
}

/// The levels that messages have room for, in the order of their ways, and with one way in the order of their places.
pub(crate) fn search_levels(alloc: Global, ways: Ways<'_>) -> Result<Vec<Step>, AllocError> {
    let mut search = Search::new(alloc, ways)?;
    search.go_through(0, None)?;
    search.finish(alloc)?;
    search.steps.sort_by_key(|step| (step.way, step.place))?;
    search.numbered(alloc)
}

impl<'a> Search<'a> {
    fn new(alloc: Global, ways: Ways<'a>) -> Result<Self, AllocError> {
        let mut nearest = Vec::new(alloc);
        for _ in ways.nodes {
            nearest.push(None)?;
        }
        Ok(Search {
            ways,
            nearest,
            steps: Vec::new(alloc),
            entered: HashSet::new(alloc),
            rest: (0..ways.nodes.len()).collect(alloc)?,
            events: Vec::new(alloc),
            waiting: BinaryHeap::new(alloc),
        })
    }

    /// Runs until no event is left.
    fn finish(&mut self, alloc: Global) -> Result<(), AllocError> {
        for _ in 0..u64::MAX {
            let Some(Reverse((length, number))) = self.waiting.pop() else {
                break;
            };
            match self.events.get(number).copied() {
                Some(Event::Enter(place)) => self.enter(place, length)?,
                Some(Event::Open(group)) => self.open(alloc, group, length)?,
                None => {}
            }
        }
        Ok(())
    }

    /// The steps, each with the number of the level round its own.
    fn numbered(&self, alloc: Global) -> Result<Vec<Step>, AllocError> {
        let mut numbers = HashMap::new(alloc);
        let mut steps = Vec::new(alloc);
        for (number, step) in self.steps.iter().enumerate() {
            numbers.insert(step.place, number.saturating_add(1))?;
        }
        for step in &self.steps {
            let outer = self.outer_of(step.place, &numbers);
            steps.push(Step { outer, ..*step })?;
        }
        Ok(steps)
    }

    fn outer_of(&self, place: usize, numbers: &HashMap<usize, usize>) -> usize {
        match self.nearest.get(place) {
            Some(
                Some(
                    Known {
                        group: Some(group),
                        ..
                    },
                ),
            ) => numbers.get(group).copied().unwrap_or(0),
            _ => 0,
        }
    }

    /// Schedules an event at a length, if a message has room for it.
    fn expect(&mut self, length: u64, event: Event) -> Result<(), AllocError> {
        if length <= self.ways.room {
            self.waiting.push(Reverse((length, self.events.len())))?;
            self.events.push(event)?;
        }
        Ok(())
    }

    /// Visits the level of a group, unless it was visited before.
    fn enter(&mut self, place: usize, way: u64) -> Result<(), AllocError> {
        if !self.entered.insert(place)? {
            return Ok(());
        }
        let wild = self.is_wild(Some(place));
        self.steps.push(Step {
            place,
            way,
            wild,
            outer: 0,
        })?;
        self.go_through(way, Some(place))
    }

    /// Visits the AVPs that the rules of a level list, and schedules those that come through its wildcard.
    fn go_through(&mut self, way: u64, group: Option<usize>) -> Result<(), AllocError> {
        let Some(exits) = self.exits_of(group) else {
            return Ok(());
        };
        let wild = self.is_wild(group);
        for (place, length) in &exits.listed {
            let length = way.saturating_add(*length);
            self.come_to(
                *place,
                Known {
                    length,
                    wild,
                    group,
                },
            )?;
        }
        self.expect(way.saturating_add(exits.beside), Event::Open(group))
    }

    fn exits_of(&self, group: Option<usize>) -> Option<&'a Exits> {
        match group {
            Some(place) => Some(&self.level_of(place)?.exits),
            None => Some(self.ways.start),
        }
    }

    fn level_of(&self, place: usize) -> Option<&'a Level> {
        let nodes = self.ways.nodes;
        nodes.get(place)?.level.as_ref()
    }

    /// Whether the way to the level of a group goes through a wildcard.
    fn is_wild(&self, group: Option<usize>) -> bool {
        let Some(place) = group else {
            return false;
        };
        match self.nearest.get(place) {
            Some(Some(known)) => known.wild,
            _ => false,
        }
    }

    /// Visits an AVP by a way, if a message has room for it, and schedules the AVP's own level.
    fn come_to(&mut self, place: usize, way: Known) -> Result<(), AllocError> {
        if self.ways.room < way.length || !self.improve(place, way) {
            return Ok(());
        }
        match self.level_of(place) {
            Some(level) => self.expect(way.length.saturating_sub(level.least), Event::Enter(place)),
            None => Ok(()),
        }
    }

    /// Records a way to the AVP if it is better than the known one. Answers whether it is.
    fn improve(&mut self, place: usize, way: Known) -> bool {
        let Some(known) = self.nearest.get_mut(place) else {
            return false;
        };
        let is_better = match known {
            Some(other) => way.is_nearer(other),
            None => true,
        };
        if is_better {
            *known = Some(way);
        }
        is_better
    }

    /// Visits the AVPs that come through the wildcard of a level. `length` is what a message takes besides one.
    fn open(&mut self, alloc: Global, group: Option<usize>, length: u64) -> Result<(), AllocError> {
        if self.rest.is_empty() {
            return Ok(());
        }
        let rest = mem::replace(&mut self.rest, Vec::new(alloc));
        let listed = self.listed_by(alloc, group)?;
        for place in &rest {
            if listed.contains(place) {
                self.rest.push(*place)?;
            } else {
                self.come_to_other(*place, length, group)?;
            }
        }
        Ok(())
    }

    /// The AVPs that the rules of a level list.
    fn listed_by(&self, alloc: Global, group: Option<usize>) -> Result<HashSet<usize>, AllocError> {
        let mut listed = HashSet::new(alloc);
        if let Some(exits) = self.exits_of(group) {
            for (place, _) in &exits.listed {
                listed.insert(*place)?;
            }
        }
        Ok(listed)
    }

    /// Visits an AVP that a wildcard lets in.
    fn come_to_other(
        &mut self,
        place: usize,
        beside: u64,
        group: Option<usize>,
    ) -> Result<(), AllocError> {
        let nodes = self.ways.nodes;
        match nodes.get(place) {
            Some(node) => self.come_to(
                place,
                Known {
                    length: beside.saturating_add(node.other),
                    wild: true,
                    group,
                },
            ),
            None => Ok(()),
        }
    }
}
