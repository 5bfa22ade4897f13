//! Cases of mdb_log: the handles of connections.

use mdb_cases::{Page, small, value_of};
use mdb_events::ConnectionInfo;
use mdb_log::{PinnedConnectionHandle, PooledConnection};

fn tell_info(page: &mut Page, info: &ConnectionInfo) {
    page.show(&info.id);
    page.put(" ");
    page.debug(&info.server_id);
    page.put(" ");
    page.show(&info.address);
}

fn show_info(page: &mut Page, connection: &PooledConnection, server: &str) {
    let Some(address) = page.address("a:1") else {
        return;
    };
    match connection.info(page.alloc, server.parse::<i64>().ok(), &address) {
        Ok(info) => tell_info(page, &info),
        Err(_) => page.fail(),
    }
}

/// `pool=0 id=4 party=1 server=5`: what names the connection to others, the number of its handle and that of its pin's.
pub fn handle(page: &mut Page, given: &str) {
    let connection = PooledConnection {
        pool: small(value_of(given, "pool")),
        id: small(value_of(given, "id")),
        party: small(value_of(given, "party")),
    };
    show_info(page, &connection, value_of(given, "server"));
    page.put(" ");
    page.show(&connection.id());
    let PooledConnection { pool, id, party: _ } = connection;
    let pin = PinnedConnectionHandle { pool, id };
    page.put(" ");
    page.show(&pin.id());
}
