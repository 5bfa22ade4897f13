//! How many operations run on a server. Server selection looks at it (Server Selection, "Operation Count").

ghost use Rattle.std.specs.Prelude.{◌≡◌};
ghost use Rattle.mdb_handles.specs.Counting.{begun_token, begun, ended, ended_answer};

use mdb_base::ServerAddress;

/// Says that one operation of a server runs. It names the pool of that server, and is spent where the operation ends.
#[derive(Debug, PartialEq, Eq)]
pub struct OpToken {
    pub pool: u32,
}

/// A server with the number of operations that run on it.
#[derive(Debug, Drop)]
pub struct Server {
    pub address: ServerAddress,
    pub pool: u32,
    pub operation_count: u32,
}

impl Server {
    /// One operation more. It is counted, and has a token, unless the count is the greatest number.
    pub fn increment_operation_count(&mut self) -> Option<OpToken>
        ensures token { result ≡ begun_token self.old }
        ensures count { self.new ≡ begun self.old }
    {
        self.operation_count = self.operation_count.checked_add(1)?;
        Some(OpToken { pool: self.pool })
    }

    /// One operation less. The token comes back where no operation runs, and where it is another server's.
    pub fn decrement_operation_count(&mut self, token: OpToken) -> Result<(), OpToken>
        ensures answer { result ≡ ended_answer self.old token }
        ensures count { self.new ≡ ended self.old token }
    {
        if self.operation_count == 0 || token.pool != self.pool {
            return Err(token);
        }
        let OpToken { pool: _ } = token;
        self.operation_count -= 1;
        Ok(())
    }

    /// How many operations run.
    pub fn operation_count(&self) -> u32
        ensures { result ≡ self.now.operation_count }
    {
        self.operation_count
    }
}
