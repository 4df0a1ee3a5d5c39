// A writer, and pictures of networks and of books, that ask for no memory.

use action_tables::put_bytes;
use app_interface::Application;
use history::{Book, Report, write_book};
use reset_machine::Config;
use std::io;
use std::io::Write;
use std::process::Abort;
use topology::Topology;
use tree_layer::TreeRegs;
use wave_layer::WaveRegs;

/// The bytes that were written, up to as many as it has room for.
#[derive(Clone, Copy, Drop)]
pub(crate) struct Page {
    bytes: [u8; 512],
    taken: usize,
}

impl Page {
    pub(crate) fn new() -> Page {
        Page {
            bytes: [0; 512],
            taken: 0,
        }
    }

    /// What was written.
    pub(crate) fn text(&self) -> &[u8] {
        match self.bytes.get(..self.taken) {
            Some(text) => text,
            None => &[],
        }
    }
}

impl Write for Page {
    fn write(&mut self, buf: &[u8]) -> io::Result<usize> {
        let Some(room) = self.bytes.get_mut(self.taken..) else {
            return Ok(0);
        };
        let count = buf.len().min(room.len());
        room[..count].copy_from_slice(&buf[..count]);
        self.taken = self.taken.saturating_add(count);
        Ok(count)
    }

    fn flush(&mut self) -> io::Result<()> {
        Ok(())
    }
}

/// Which of the nodes 1, 2 and 3 are up, and which of them are linked.
#[derive(Clone, Copy, Debug, PartialEq, Eq)]
pub(crate) struct Shape {
    nodes: usize,
    up: [bool; 3],
    links: usize,
    linked: [bool; 3],
}

impl Shape {
    pub(crate) fn of(topology: &Topology) -> Shape {
        let up = topology.nodes();
        Shape {
            nodes: topology.len(),
            up: [up.contains(&1), up.contains(&2), up.contains(&3)],
            links: topology.link_count(),
            linked: [
                topology.linked(1, 2),
                topology.linked(2, 3),
                topology.linked(1, 3),
            ],
        }
    }
}

/// All that a network of the nodes 1, 2 and 3 keeps, of which some may be down.
#[derive(Drop)]
pub(crate) struct Picture {
    shape: Shape,
    modulus: u64,
    trees: [Option<TreeRegs>; 3],
    waves: [Option<WaveRegs>; 3],
    locals: Page,
}

impl Picture {
    pub(crate) fn of<P: Application>(rt: &impl Abort, config: &Config<P>) -> Picture {
        let mut locals = Page::new();
        for id in [1, 2, 3] {
            if let Some(local) = config.local_at(id) {
                assert!(rt; P::show(local, &mut locals).is_ok());
            }
            assert!(rt; put_bytes(&mut locals, b"\n").is_ok());
        }
        Picture {
            shape: Shape::of(config.topology()),
            modulus: config.modulus().get(),
            trees: [config.tree_at(1), config.tree_at(2), config.tree_at(3)],
            waves: [config.wave_at(1), config.wave_at(2), config.wave_at(3)],
            locals,
        }
    }

    pub(crate) fn is(&self, other: &Picture) -> bool {
        self.shape == other.shape
            && self.modulus == other.modulus
            && self.trees == other.trees
            && self.waves == other.waves
            && self.locals.text() == other.locals.text()
    }
}

/// All that a book of such a network keeps, with its entries as a text.
#[derive(Drop)]
pub(crate) struct Record {
    config: Picture,
    text: Page,
    reports: [Option<Report>; 2],
}

impl Record {
    pub(crate) fn of<P: Application>(rt: &impl Abort, book: &Book<P>) -> Record {
        let mut text = Page::new();
        assert!(rt; write_book(book, &mut text).is_ok());
        let reports = book.reports();
        Record {
            config: Picture::of(rt, book.config()),
            text,
            reports: [reports.first().copied(), reports.get(1).copied()],
        }
    }

    pub(crate) fn is(&self, other: &Record) -> bool {
        self.config.is(&other.config)
            && self.text.text() == other.text.text()
            && self.reports == other.reports
    }

    /// The text of the book.
    pub(crate) fn text(&self) -> &[u8] {
        self.text.text()
    }
}
