ghost use Rattle.std.specs.Prelude.{◌≡◌, Ok, false, [], length, IfOk, IfErr};
ghost use Rattle.tx_types.specs.Config.{checked};
ghost use Rattle.flash_model.specs.Calls.{Carries};
ghost use Rattle.host_protocol.specs.Commands.{Suits};
ghost use Rattle.mounted_session.specs.Sessions.{is_mounted};
ghost use Rattle.cut_replay.specs.Sessions.{flash_in, Unmounted};
ghost use Rattle.cut_replay.specs.ServerCalls.{OpensServer, ServesNext, ServesDurably, FlushesServer, flush_of};

use crate::flushing::flush;
use crate::serving::serve_one;
use crate::{ServeError, Unflushed};
use flash_model::{Arms, Cached, NotDurable, Power, Wide};
use host_protocol::{Command, Reply};
use mounted_session::Session;
use page_cache::PageCache;
use record_list::CommitRule;
use std::alloc::Global;
use std::marker::Model;
use tx_engine::Device;
use tx_types::{Config, Memory};

/// Why the next command has no reply.
#[derive(Clone, Copy)]
pub enum NextError {
    /// What an earlier command left could not be made durable, and nothing was served: what keeps the flash has failed.
    NotDurable,
    /// Serving ended.
    Ended(ServeError),
}

/// A flash on which commands are served one at a time. It is seen as its configuration, its session, and the pages that
/// were read.
#[derive(Drop)]
pub struct Server<F: Power, R: CommitRule> {
    config: Config,
    session: Session<F, Device<F, R>>,
    cache: PageCache,
    /// Room for a page.
    room: Vec<u8>,
}

impl<F: Power, R: CommitRule> Model for Server<F, R> {
    ghost use Rattle.cut_replay.specs.ServerState.{ServerState};

    ghost Value = { ServerState F };

    ghost use Rattle.cut_replay.specs.ServerParts.{server_of, ServerInvariant};

    ghost view = { server_of };

    ghost invariant = { ServerInvariant F.state R.protocol };
}

impl<F: Power, R: CommitRule> Server<F, R> {
    /// Begins to serve on a flash. A flash with power is mounted first. One that is refused, or for which there is no
    /// memory, comes back.
    pub fn open(alloc: Global, flash: F, config: Config) -> Result<Server<F, R>, (F, ServeError)>
        requires check { checked config ≡ Ok (F.state flash).shape }
        requires rule { config.protocol ≡ R.protocol }
        ensures opens { IfOk result (OpensServer F.state config flash) }
        ensures empty { IfOk result (λ s. s.cache.entries ≡ []) }
        ensures failed { IfErr result (λ e. Unmounted F.state config flash e.0 e.1) }
        ensures calls { IfErr result (λ e. Carries (F.state flash) (F.state e.0) false) }
    {
        let Ok((cache, room)) = buffers(alloc, config.page_bytes) else {
            return Err((flash, ServeError::Memory));
        };
        match mounted_session::begin(alloc, flash, config) {
            Ok(session) => Ok(Server {
                config,
                session,
                cache,
                room,
            }),
            Err((flash, why)) => Err((flash, ServeError::from(why))),
        }
    }

    /// The configuration that it was opened with, which is one of its flash.
    pub fn config(&self) -> Config
        ensures config { result ≡ self.now.config }
        ensures check { checked result ≡ Ok (F.state (flash_in self.now.session)).shape }
        ensures rule { result.protocol ≡ R.protocol }
    {
        self.config
    }

    /// Whether a device is mounted.
    pub fn is_mounted(&self) -> bool
        ensures { result ≡ is_mounted self.now.session }
    {
        self.session.is_mounted()
    }

    /// The flash, as it stands.
    pub fn flash(&self) -> &F
        ensures { result.now ≡ flash_in self.now.session }
    {
        self.session.flash()
    }

    /// Ends the session, and gives its flash as it stands.
    pub fn close(self) -> F
        ensures flash { result ≡ flash_in self.session }
        ensures check { checked self.config ≡ Ok (F.state result).shape }
    {
        let Server { session, .. } = self;
        session.close()
    }
}

impl<F: Power + Arms + Wide, R: CommitRule> Server<F, R> {
    /// Serves the next command. After an error the flash is alone, and nothing is to be served any more. Where programs
    /// wait (`Cached`), the reply comes before they are durable: such a flash is served by `serve_next`.
    pub fn answer_next(&mut self, alloc: Global, command: &Command) -> Result<Reply, ServeError>
        requires { Suits self.old.config.page_bytes command.now }
        ensures { ServesNext F.state self.old.config command.now self.old result self.new }
    {
        let served = serve_one(
            alloc,
            self.config,
            &mut self.session,
            &mut self.cache,
            &mut self.room,
            command,
        );
        match served {
            Err(why) => {
                self.session.unmount();
                Err(why)
            }
            answered => answered,
        }
    }
}

impl<F: Power + Arms + Wide + Cached, R: CommitRule> Server<F, R> {
    /// Serves the next command. What an earlier one left is made durable before that, so what waits afterwards is of
    /// this command alone. Its reply may be said once `flush` has opened it. After an error nothing is to be served any
    /// more; where serving ended the flash is alone.
    pub fn serve_next(&mut self, alloc: Global, command: &Command) -> Result<Unflushed, NextError>
        requires { Suits self.old.config.page_bytes command.now }
        ensures { ServesDurably F.state F.flushes self.old.config command.now self.old result self.new }
    {
        let earlier = self.make_durable();
        if earlier.is_err() {
            return Err(NextError::NotDurable);
        }
        let answered = self.answer_next(alloc, command);
        match answered {
            Ok(reply) => Ok(Unflushed { reply }),
            Err(why) => Err(NextError::Ended(why)),
        }
    }

    /// Makes durable all that was done. The run is as before, and the flash shows what it showed, also where this
    /// fails.
    fn make_durable(&mut self) -> Result<(), NotDurable>
        ensures stays { FlushesServer F.state self.old.config self.old self.new }
        ensures flushes { F.flushes (flash_in self.old.session) (flash_in self.new.session) result }
    {
        flush(&mut self.session)
    }

    /// Makes durable all that was done, and opens a reply: it may be said then. The run is as before, and the flash
    /// shows what it showed, also where this fails. Then no reply may be said any more, and nothing more is to be
    /// served: what keeps the flash has failed. Of a `LiveFlash` each later flush fails too.
    pub fn flush(&mut self, unflushed: Unflushed) -> Result<Reply, NotDurable>
        ensures opens { IfOk result (λ reply. reply ≡ unflushed) }
        ensures stays { FlushesServer F.state self.old.config self.old self.new }
        ensures flushes { F.flushes (flash_in self.old.session) (flash_in self.new.session) (flush_of result) }
    {
        let flushed = self.make_durable();
        open_flushed(unflushed, flushed)
    }
}

/// The reply, if the flash was flushed.
fn open_flushed(unflushed: Unflushed, flushed: Result<(), NotDurable>) -> Result<Reply, NotDurable>
    ensures opens { IfOk result (λ reply. reply ≡ unflushed) }
    ensures flushed { flush_of result ≡ flushed }
{
    let Unflushed { reply } = unflushed;
    match flushed {
        Ok(()) => Ok(reply),
        Err(failed) => {
            drop(reply);
            Err(failed)
        }
    }
}

/// A cache and room for a page.
fn buffers(alloc: Global, page_bytes: u32) -> Result<(PageCache, Vec<u8>), Memory>
    ensures size { IfOk result (λ rooms. rooms.0.page_bytes ≡ page_bytes) }
    ensures empty { IfOk result (λ rooms. rooms.0.entries ≡ []) }
    ensures room { IfOk result (λ rooms. length rooms.1.items ≡ page_bytes) }
{
    let cache = PageCache::new(alloc, page_bytes)?;
    let room = vec![in alloc; 0; page_bytes as usize]?;
    Ok((cache, room))
}
