// What is drawn: a figure, how it was fractured, and what came of it.
use crate::sheet::{Grid, View};
use fracture::Fractured;

// A figure by its two lists, with its name and its number for the head.
#[derive(Clone, Copy)]
pub struct Figure<'a> {
    pub name: &'a [u8],
    pub number: u64,
    pub corners: &'a [u16],
    pub lengths: &'a [u16],
}

// How a figure is fractured: by which rule, and by pinwheels too or by straight cuts alone.
#[derive(Clone, Copy)]
pub struct Manner {
    pub threshold: u32,
    pub weight: u32,
    pub pinwheels: bool,
}

// A figure that was fractured, what was told of that, the list of its shots with nothing behind them, and where it lies.
#[derive(Clone, Copy)]
pub struct Scene<'a> {
    pub figure: Figure<'a>,
    pub manner: Manner,
    pub told: Fractured,
    pub list: &'a [u16],
    pub grid: Grid<'a>,
    pub view: View,
}

impl<'a> Scene<'a> {
    // The same by its grid.
    pub(crate) fn on(
        grid: Grid<'a>,
        figure: Figure<'a>,
        manner: Manner,
        told: Fractured,
        list: &'a [u16],
    ) -> Scene<'a> {
        Scene {
            figure,
            manner,
            told,
            list,
            grid,
            view: View::of(grid),
        }
    }

    // The shots, four numbers each.
    pub(crate) fn shots(self) -> &'a [[u16; 4]] {
        self.list.as_chunks::<4>().0
    }
}
