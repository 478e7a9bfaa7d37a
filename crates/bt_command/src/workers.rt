//! How many workers the words of a call ask for.
ghost use Rattle.std.specs.Prelude.{◌⊎◌, IfErr, IfOk, IsErrOf, IsOk};
ghost use Rattle.bt_words.specs.Request.{Asked, IsRefused, IsRequest, texts};
ghost use Rattle.bt_command.specs.Wanted.{WantsWorkers, IsUsageOrWant};

use crate::Status;
use bt_words::{NoRequest, Request, request_of};
use std::alloc::Global;

/// The number of workers that the words ask for, from 1 to 64, and 1 for words that name none.
///
/// Usage comes only for words that are refused, and Want for want of memory alone; no other status comes.
pub fn wanted(alloc: Global, words: &[String]) -> Result<u32, Status>
    ensures workers { IfOk result (WantsWorkers (texts words.now)) }
    ensures usage { IsErrOf result Status.Usage → IsRefused (texts words.now) }
    ensures alone { IfErr result IsUsageOrWant }
    // Words that ask for something give the number, unless memory is wanting.
    ensures asked { (asked : Asked) → IsRequest (texts words.now) asked → IsOk result ⊎ IsErrOf result Status.Want }
{
    match request_of(alloc, words) {
        Ok(Request::Bound { workers, .. }) => Ok(workers),
        Ok(Request::Graph { workers, .. }) => Ok(workers),
        Ok(Request::Decode { .. }) => Ok(1),
        Ok(Request::Generate { workers, .. }) => Ok(workers),
        Err(NoRequest::Usage) => Err(Status::Usage),
        Err(NoRequest::Want) => Err(Status::Want),
    }
}
