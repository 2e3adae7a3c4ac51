ghost use Rattle.std.specs.Prelude.{◌≡◌, List, unwrap_or};
ghost use Rattle.pool.specs.State.{none};
ghost use Rattle.pool.specs.Frames.{free_frame};
ghost use Rattle.pool.specs.Stages.{stage_move};
ghost use Rattle.pool.specs.declared.Client.{Client};
ghost use Rattle.books.specs.Books.{pool_in};
ghost use Rattle.actions.specs.Turn.{turn_at};
ghost use Rattle.answers.specs.declared.stage.Stage.TheVariants.{TakeFrame};

use crate::{View, moves, stages};
use answers::Stage;
use pool::Move;

impl View<'_> {
    /// The client's move at a stage. One `match` on a closed enum: a closure or a `dyn` for each stage would say less.
    fn turn(&self, stage: Stage) -> Move
        ensures { (clients : List Client) →
            (stage ≡ TakeFrame → unwrap_or self.now.fresh none ≡ free_frame (pool_in self.now.books clients)) →
            result ≡ turn_at stage (pool_in self.now.books clients) self.now.client }
    {
        let books = &self.books;
        let client = self.client;
        let numbers = books.numbers;
        match stage {
            Stage::LookUp => stages::stage1(client, books.lookup(client.page)),
            Stage::PinFound => stages::stage2(client, books.pins(client.found)),
            Stage::RaiseFound => stages::stage3(client, numbers.cap, books.count(client.found)),
            Stage::TakeFrame => stages::stage4(client, numbers.cap, self.fresh),
            Stage::ReadFree => stages::stage5(client, books.free),
            Stage::LowerFree => stages::stage6(client, books.free),
            Stage::ReadHand => stages::stage7(client, books.hand, numbers.size),
            Stage::FillSlot => stages::stage8(client, books.slot(client.place), numbers.size),
            Stage::MoveHand => stages::stage9(client, books.hand),
            Stage::StartSweep => stages::stage10(client, books.hand, numbers.size),
            Stage::LookAtSlot => stages::stage11(client, books.slot(client.place), numbers.size),
            Stage::ReadPins => stages::stage12(client, books.pins(client.victim), numbers.size),
            Stage::LowerCount => stages::stage13(client, books.count(client.victim), numbers.size),
            Stage::EvictVictim => stages::stage14(client, books.pins(client.victim), numbers.size),
            Stage::ReplaceVictim => stages::stage15(client, books.slot(client.place), numbers.size),
            Stage::PassSlot => stages::stage16(client, books.hand, numbers.size),
            Stage::RemoveEntry => {
                let page = books.page(client.victim);
                stages::stage17(client, page, books.entry_of(page), books.lookup(page))
            }
            Stage::MapPage => stages::stage18(
                client,
                books.lookup(client.page),
                books.unused_entry(),
            ),
            Stage::PinMapped => stages::stage19(client, books.pins(client.found)),
            Stage::GiveUpToJoin => stages::stage20(client, books.pins(client.own)),
            Stage::RaiseJoined => stages::stage21(client, numbers.cap, books.count(client.found)),
            Stage::MapAnew => {
                let page = client.page;
                stages::stage22(client, books.entry_of(page), books.lookup(page))
            }
            Stage::GiveUpToStartAnew => stages::stage23(client, books.pins(client.own)),
        }
    }

    /// The client's move at the stage where it stands: SPECIFICATION 3.3.
    pub fn stage_move(&self) -> Move
        ensures { (clients : List Client) →
            (self.now.client.stage ≡ 4 → unwrap_or self.now.fresh none ≡ free_frame (pool_in self.now.books clients)) →
            result ≡ stage_move (pool_in self.now.books clients) self.now.client }
    {
        match Stage::at(self.client.stage) {
            Some(stage) => self.turn(stage),
            None => moves::stuck(self.client),
        }
    }
}
