//! A histogram.

use std::alloc::{AllocError, Global};
use std::sync::atomic::{AtomicU64, Ordering};

/// Histogram of amounts: a count for each class, and the sum of all. A class has the amounts up to its end that those
/// before it don't have, and the last class has no end. The ends are given at each call, and are always the same ones.
#[derive(Drop)]
pub struct Histogram {
    classes: Vec<AtomicU64>,
    sum: AtomicU64,
}

/// Returns the class of an amount.
fn class_of(ends: &[u64], amount: u64) -> usize {
    for (place, end) in ends.iter().enumerate() {
        if amount <= *end {
            return place;
        }
    }
    ends.len()
}

impl Histogram {
    /// Makes a histogram of no amounts.
    pub fn new(alloc: Global, ends: &[u64]) -> Result<Histogram, AllocError> {
        let mut classes = Vec::new(alloc);
        for _class in 0..=ends.len() {
            classes.push(AtomicU64::new(0))?;
        }
        Ok(Histogram {
            classes,
            sum: AtomicU64::new(0),
        })
    }

    /// Adds an amount.
    pub fn add(&self, ends: &[u64], amount: u64) {
        if let Some(class) = self.classes.get(class_of(ends, amount)) {
            class.fetch_add(1, Ordering::SeqCst);
        }
        self.sum.fetch_add(amount, Ordering::SeqCst);
    }

    /// Returns how many amounts a class has.
    pub fn count(&self, class: usize) -> u64 {
        match self.classes.get(class) {
            Some(class) => class.load(Ordering::SeqCst),
            None => 0,
        }
    }

    /// Returns the sum of all amounts.
    pub fn sum(&self) -> u64 {
        self.sum.load(Ordering::SeqCst)
    }
}
