//! What holds of all sessions in which an array is served for writing. The functions do nothing: their contracts are the theorems.

ghost use Rattle.md_serve_commands.specs.FirstSessions.{SessionsMayBegin};
ghost use Rattle.md_serve_commands.specs.Sessions.{FlushedStands, SessionsAreExchanges, SessionsTellContent};
ghost use Rattle.md_serve_commands.specs.Told.{HaltsEnd, HaltsForGood, HaltsSession, NothingIsDropped, SessionsAreCalls, ToldFlushesStand, ToldWritesAreKept};
ghost use Rattle.md_serve_commands.specs.WholeSessions.{SessionsAreWhole, SessionsEndAsTold};

use md_streams::{Sink, Source};

/// A write that is answered without an error is done, as `write` does it, or waits behind those before it; and no request loses what
/// waits, also where a late write fails. Once a flush is answered without an error all of them are done, and the mirror runs. Once the
/// mirror is halted each request is an error, and the mirror stays as it is, at the end of the session too.
pub fn told_writes()
    ensures kept { ToldWritesAreKept }
    ensures flushed { ToldFlushesStand }
    ensures dropped { NothingIsDropped }
    ensures halted { HaltsForGood }
    ensures session { HaltsSession }
    ensures end { HaltsEnd }
{}

/// All that is done for a client's requests is a list of events, as that of a whole call, unless the mirror is halted at the end. So
/// `md_laws::whole_calls::every_reading_call` speaks of a session, and of each moment of it.
pub fn every_session()
    ensures { SessionsAreCalls }
{}

/// Whatever comes of a session, of any source and any sink, is a list of requests that were done, one after another. The source gave
/// them once the client had the export, and the sink took their replies in this order and no other byte, unless it failed; but for the
/// last, perhaps, of which nobody was told, as the output failed. Or no request was taken, and nothing was done. So the other laws speak
/// of it, wherever the source ends or a stream fails. Where the client was silent for long a rest stands in the list, as a flush for
/// which no byte came, and of which nobody was told.
pub fn session_exchanges<I: Source, S: Sink>()
    ensures { SessionsAreExchanges I.Source S.Sink }
{}

/// What a client is told without an error is what an array of sectors by itself would tell, whatever it sends and however far the
/// session has come: each read shows what was answered without an error before, and an error changes nothing that a later answer shows.
/// When there is an error is not said here. And what was told of is the content of the array, which each member in sync holds in each
/// sector that it does not list, but for what waits; after a flush, all of it. Write intent holds there. Where a request halted the
/// mirror it is so up to that request, which is refused, as all after it are, and nothing is done any more.
///
/// What was told of up to a flush that was answered without an error stands at each crash of the session after it, of its end and after
/// that, in each sector that no later request is to write, whatever that is answered: of whatever devices the next opening is made
/// (`IsReopened`), its members in sync hold it, unless they list the sector, and so they do after a resync. The crash is in the life of
/// the mirror, by the events of that session up to it, and of a write of marks that halted it.
///
/// From the opening of a session to its end, where the mirror runs then, each member in sync holds what was told of in all requests, but
/// for what waited, where that was not written; and in each sector that no request was to write after a flush, what was told of up to
/// that. It stands from then on, and a stopped array is clean.
///
/// It is so from any moment of a life on at which nothing is in flight; of crashes it is said of an array that is resynced, as one that is
/// served. Asked is that each failed write of a superblock on the way left the old one, the new one or none, for what the client is told
/// too; and that one which the crash cut did so, unless it was to be done and both superblocks are of at most 128 roles. Of what the
/// members of a halted mirror hold nothing is said but at a crash, within the call that halted it or at any time after; of a write of
/// marks that halted it it is asked that it was left done or not done.
pub fn told_content()
    ensures sessions { SessionsTellContent }
    ensures flushed { FlushedStands }
    ensures end { SessionsEndAsTold }
{}

/// All of it, of `serve_writable`: the array is made ready, by a resync if it needs one, which leaves the content in each sector that all
/// members in sync give alike; its requests are those of `session_exchanges`; and then comes the end, as `told_content` says. The
/// answer tells whether what waited at the end was written, unless it is `Stop`: then it may have been.
pub fn whole_sessions<I: Source, S: Sink>()
    ensures { SessionsAreWhole I.Source S.Sink }
{}

/// What these laws ask of the beginning of a session can be met: of a new array whose honest devices were opened, and which was resynced,
/// a life has come to where nothing is in flight, and a client may flush there and be answered without an error. No write and no crash is
/// shown so.
pub fn first_sessions()
    ensures { SessionsMayBegin }
{}
