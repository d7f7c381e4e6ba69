// A book that is made, looked at and emptied.
ghost use Rattle.std.specs.Prelude.{◌≡◌, ◌≤◌, length, IfOk};
ghost use Rattle.std.specs.Option.{option_map};
ghost use Rattle.std.specs.List.{slice_get};
ghost use Rattle.market.specs.Market.{Level, empty, best, all_resting, levels as levels_on, lots_of, total};
ghost use Rattle.side.specs.Levels.{levels_of};
ghost use Rattle.side.specs.declared.book_side.LevelAt.{LevelAt};
ghost use Rattle.book.specs.Market.{market_of};

use crate::book::Book;
use fix::Side;
use level::{MOST_ORDERS, Scratch};
use ordered::OrderedMap;
use side::{BookSide, LevelAt};
use std::alloc::{AllocError, Global};

impl Book {
    /// An empty book. All its memory is reserved here, and want of it is the one failure; nothing allocates after this.
    #[tactic(auto, using(crate::proofs::Known::none_placed))]
    pub fn new(heap: Global) -> Result<Book, AllocError>
        ensures made { IfOk result (λ b. market_of b ≡ empty) }
    {
        let buys = BookSide::new(heap, Side::Buy)?;
        let sells = BookSide::new(heap, Side::Sell)?;
        let places = OrderedMap::new(heap, MOST_ORDERS)?;
        let scratch = Scratch::new(heap)?;
        Ok(Book {
            buys,
            sells,
            places,
            scratch,
        })
    }

    /// How many orders rest.
    pub fn len(&self) -> usize
        ensures value { result ≡ all_resting (market_of self.now) }
        ensures few { result ≤ 1024 }
    {
        self.places.len()
    }

    /// The highest buy, or none where no buy rests.
    pub fn best_buy(&self) -> Option<u32>
        ensures value { result ≡ best (market_of self.now).buys }
    {
        self.buys.best()
    }

    /// The lowest sell, or none where no sell rests.
    pub fn best_sell(&self) -> Option<u32>
        ensures value { result ≡ best (market_of self.now).sells }
    {
        self.sells.best()
    }

    /// Takes every order out.
    #[tactic(auto, using(crate::proofs::Known::none_placed))]
    pub fn clear(&mut self)
        ensures market { market_of self.new ≡ empty }
    {
        self.buys.clear();
        self.sells.clear();
        self.places.clear();
    }

    fn side(&self, side: Side) -> &BookSide
        ensures value { levels_of result.now ≡ levels_on side (market_of self.now) }
    {
        match side {
            Side::Buy => &self.buys,
            Side::Sell => &self.sells,
        }
    }

    /// How many levels a side has.
    pub fn levels(&self, side: Side) -> usize
        ensures value { result ≡ length (levels_on side (market_of self.now)) }
    {
        self.side(side).levels()
    }

    /// The level of a side at a place, the best at 0.
    pub fn level_at(&self, side: Side, place: usize) -> Option<LevelAt<'_>>
        ensures price { option_map (λ (l : LevelAt). l.price) result ≡ option_map (λ (l : Level). l.price) (slice_get (levels_on side (market_of self.now)) place) }
        ensures queue { option_map (λ (l : LevelAt). l.queue.now) result ≡ option_map (λ (l : Level). l.queue) (slice_get (levels_on side (market_of self.now)) place) }
        ensures lots { option_map (λ (l : LevelAt). l.lots) result ≡ option_map (λ (l : Level). total (lots_of l.queue)) (slice_get (levels_on side (market_of self.now)) place) }
    {
        self.side(side).level_at(place)
    }
}
