//! The calls of services and databases as traits, so that what tests them is proved without the
//! contract of a store.
use atl_campaign::Campaign;
use atl_service::{Answer, Command, Service};
use sqlite::{Alter, Connection};
use std::alloc::AllocError;
use std::test::Fail;

/// A service that runs commands, and shows its campaign and the text of the books.
pub(crate) trait AnyService {
    fn run(&mut self, command: &Command) -> Answer;

    fn run_all(&mut self, commands: &[Command]) -> Result<Vec<Answer>, AllocError>;

    /// None if the service is closed.
    fn campaign(&self) -> Option<&Campaign>;

    /// None if the service is closed.
    fn books(&self) -> Option<Result<String, AllocError>>;
}

/// A service over any store makes each call by its own call of that name.
impl<S: Alter> AnyService for Service<S> {
    fn run(&mut self, command: &Command) -> Answer {
        Service::run(self, command)
    }

    fn run_all(&mut self, commands: &[Command]) -> Result<Vec<Answer>, AllocError> {
        Service::run_all(self, commands)
    }

    fn campaign(&self) -> Option<&Campaign> {
        Service::campaign(self)
    }

    fn books(&self) -> Option<Result<String, AllocError>> {
        Service::books(self)
    }
}

/// A database that answers queries with a number, and runs SQL statements.
pub(crate) trait Tables {
    fn number(&mut self, sql: &str) -> Option<i64>;

    fn change(&mut self, sql: &str) -> Result<(), Fail>;
}

/// A connection runs the SQL; a query that fails, or gives no row or no number, returns None.
impl<S: Alter> Tables for Connection<S> {
    fn number(&mut self, sql: &str) -> Option<i64> {
        match self.query_row(sql, &[]) {
            Ok(row) => row.get(0).ok(),
            Err(_) => None,
        }
    }

    fn change(&mut self, sql: &str) -> Result<(), Fail> {
        self.execute_batch(sql)?;
        Ok(())
    }
}
