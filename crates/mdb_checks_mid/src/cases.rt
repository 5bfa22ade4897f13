//! Which call a kind of case makes.

use crate::pool::Pool;
use crate::{
    closed_pools, driver_pools, drivers, entries, errors, generator, handles, lines, pool, shown,
    spent,
};
use mdb_cases::Page;

/// The pool that the last `open` made.
#[derive(Drop)]
pub struct Cases {
    pool: Option<Pool>,
}

impl Cases {
    pub fn new() -> Cases {
        Cases { pool: None }
    }

    /// Puts on the page what the call of this kind answers.
    pub fn answer(&mut self, page: &mut Page, kind: &str, given: &str) {
        match kind {
            "pool" => pool::follow(page, &mut self.pool, given),
            "handle" => handles::handle(page, given),
            "driver" => drivers::driver(page, given),
            "driver-pool" => driver_pools::driver_pool(page, given),
            "driver-closed" => closed_pools::closed_pool(page, given),
            "spent" => spent::spent(page, given),
            "handshake" => drivers::handshake(page, given),
            _ => of_texts(page, kind, given),
        }
    }
}

fn of_texts(page: &mut Page, kind: &str, given: &str) {
    match kind {
        "line" => lines::line(page, given),
        "lines" => lines::answer(page, given),
        "entry" => entries::entry(page, given),
        "error-text" => errors::text(page, given),
        "generator" => generator::answer(page, given),
        "shown" => shown::shown(page, given),
        _ => page.put("malformed"),
    }
}
