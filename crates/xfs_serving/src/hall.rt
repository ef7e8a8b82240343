use std::alloc::Global;
use std::sync::atomic::{AtomicBool, Ordering};
use xfs_base::Service;
use xfs_server::Bell;

/// What all threads of a server share.
#[derive(Drop)]
pub(crate) struct Hall<'s, R, C, G> {
    pub rt: &'s R,
    pub alloc: Global,
    pub clock: &'s C,
    pub gate: &'s G,
    pub signals: &'s Signals,
}

/// What threads tell each other, and no proof rests on.
#[derive(Drop)]
pub(crate) struct Signals {
    /// A worker has ended, since memory ran out.
    pub starved: AtomicBool,
    pub cards: WorkerSignals,
    pub keys: WorkerSignals,
    pub notes: WorkerSignals,
}

/// What is told of a worker, and what it is told.
#[derive(Drop)]
pub(crate) struct WorkerSignals {
    /// No thread could be made for it.
    pub here: AtomicBool,
    /// It rings where something was posted to its service, or the worker is to end.
    pub bell: Bell,
}

impl WorkerSignals {
    fn new() -> WorkerSignals {
        WorkerSignals {
            here: AtomicBool::new(false),
            bell: Bell::new(),
        }
    }

    fn is_here(&self) -> bool {
        self.here.load(Ordering::SeqCst)
    }
}

impl Signals {
    pub fn new() -> Signals {
        Signals {
            starved: AtomicBool::new(false),
            cards: WorkerSignals::new(),
            keys: WorkerSignals::new(),
            notes: WorkerSignals::new(),
        }
    }

    /// Whether the loop of the doors makes the rounds of some worker.
    pub fn is_any_here(&self) -> bool {
        self.cards.is_here() || self.keys.is_here() || self.notes.is_here()
    }

    /// The bell of the worker of a service. None where it has no device.
    pub fn bell_of(&self, service: Service) -> Option<&Bell> {
        match service {
            Service::Publisher => None,
            Service::Card => Some(&self.cards.bell),
            Service::Keys => Some(&self.keys.bell),
            Service::Cash => Some(&self.notes.bell),
        }
    }

    /// Wakes all workers.
    pub fn ring_all(&self) {
        self.cards.bell.ring();
        self.keys.bell.ring();
        self.notes.bell.ring();
    }
}
