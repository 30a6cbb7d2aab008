// A store that takes entries.
ghost use Rattle.std.specs.Prelude.{◌≡◌, None};
ghost use Rattle.fm_store.specs.StoreCalls.{next_entry};
ghost use Rattle.fm_store.specs.StoreLeft.{store_disk};

use crate::stops::Stop;
use crate::takers::Taker;
use fm_entry::Entry;
use fm_outer::Disk;
use fm_store::Store;
use std::alloc::Global;

impl<D: Disk, M> Taker for Store<D, M> {
    ghost use Rattle.std.specs.Prelude.{true};
    ghost use Rattle.fm_lent.specs.Lending.{six_paired};
    ghost use Rattle.fm_answers.specs.Recording.{Recorded};
    ghost use Rattle.fm_answers.specs.RecordingLaws.{recorded_none, recorded_on, recorded_numbers};

    ghost TELLS_NUMBERS = { true };

    const TELLS_NUMBERS: bool = true;

    ghost went = { λ a b es last. Recorded D.Disk a b es last };

    ghost ready = { λ a. a.logs.closed ≡ None };

    ghost name = { λ a. six_paired (λ n. D.name (store_disk n a)) };

    ghost next = { λ a. next_entry a.logs };

    ghost stays = { λ a. recorded_none _ a };

    ghost goes_on = { λ a b c es fs last first then. recorded_on _ a b c es fs last first
        then };

    ghost numbers = { λ a b es went. recorded_numbers _ a b es went };

    fn take(&mut self, alloc: Global, entry: Entry) -> Result<u64, Stop> {
        match self.accept(alloc, entry) {
            Ok(number) => Ok(number),
            Err(fault) => Err(Stop::from(fault)),
        }
    }
}
