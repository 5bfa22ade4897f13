//! The texts of the types of errors.

use crate::lines::run_error;
use mdb_base::{AddressError, OutOfMemory};
use mdb_cases::{Page, down, parted};
use mdb_hello::{HelloError, LinkError, RunHelloError};
use mdb_lines::LineError;
use mdb_srv::{LookupError, SrvError};

fn of_address(page: &mut Page, given: &str) {
    page.show(&match given {
        "BadAddress" => AddressError::BadAddress,
        _ => AddressError::OutOfMemory,
    });
}

fn of_line(page: &mut Page, given: &str) {
    page.show(&match given {
        "Bad" => LineError::Bad,
        _ => LineError::OutOfMemory,
    });
}

fn of_lookup(page: &mut Page, given: &str) {
    page.show(&match given {
        "Failed" => LookupError::Failed,
        _ => LookupError::OutOfMemory,
    });
}

fn of_hello(page: &mut Page, given: &str) {
    page.show(&match given {
        "BadField" => HelloError::BadField("me"),
        _ => HelloError::OutOfMemory,
    });
}

fn link_error(page: &mut Page, given: &str) -> LinkError {
    match given {
        "Failed" => LinkError::Failed(down(page)),
        _ => LinkError::OutOfMemory,
    }
}

fn of_link(page: &mut Page, given: &str) {
    let error = link_error(page, given);
    page.show(&error);
    drop(error);
}

fn run_hello_error(page: &mut Page, given: &str) -> RunHelloError {
    match given {
        "Link" => RunHelloError::Link(down(page)),
        "BadField" => RunHelloError::BadField("me"),
        _ => RunHelloError::OutOfMemory,
    }
}

fn of_run_hello(page: &mut Page, given: &str) {
    let error = run_hello_error(page, given);
    page.show(&error);
    drop(error);
}

fn srv_error(page: &mut Page, given: &str) -> SrvError {
    match given {
        "DnsResolve" => SrvError::DnsResolve(page.text("two records")),
        "ResolverFault" => SrvError::ResolverFault,
        _ => SrvError::OutOfMemory,
    }
}

fn of_srv(page: &mut Page, given: &str) {
    let error = srv_error(page, given);
    page.show(&error);
    drop(error);
}

/// `error-text AddressError BadAddress`: the text of the error.
pub fn text(page: &mut Page, given: &str) {
    let (kind, given) = parted(given);
    match kind {
        "OutOfMemory" => page.show(&OutOfMemory),
        "AddressError" => of_address(page, given),
        "HelloError" => of_hello(page, given),
        "LinkError" => of_link(page, given),
        "RunHelloError" => of_run_hello(page, given),
        "LookupError" => of_lookup(page, given),
        "SrvError" => of_srv(page, given),
        "LineError" => of_line(page, given),
        "RunError" => page.show(&run_error(given)),
        _ => page.put("malformed"),
    }
}
