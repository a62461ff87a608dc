//! The scenes of a text, line by line.

use crate::fault::Fault;
use crate::groups::Groups;
use crate::numbers::read_number;
use crate::scene::Scene;
use crate::spelling::{bytes, items};
use crate::world::WorldScene;
use std::alloc::Global;

/// A scene of one of the two kinds.
#[derive(Drop)]
enum Begun<'a> {
    Stream(Scene<'a>),
    World(WorldScene<'a>),
}

/// The scenes so far, and the last of them, which goes on.
#[derive(Drop)]
pub struct Play<'a> {
    alloc: Global,
    groups: Groups<'a>,
    scene: Option<Begun<'a>>,
    /// How many scenes were as they must be, and how many were not.
    pub kept: u64,
    pub broken: u64,
    /// How many records of scenes that bear it were refused for want of memory, and sent again.
    pub refused: u64,
}

impl<'a> Play<'a> {
    pub fn new(alloc: Global) -> Play<'a> {
        Play {
            alloc,
            groups: Groups::new(alloc),
            scene: None,
            kept: 0,
            broken: 0,
            refused: 0,
        }
    }

    /// What the line of this number says.
    pub fn take<R: Print>(&mut self, rt: &R, line: u64, text: &'a str) -> Result<(), Fault> {
        let (verb, rest) = text.split_once(' ').unwrap_or((text, ""));
        match verb {
            "" | "#" => Ok(()),
            "let" => self.name(rest),
            "scene" => self.begin(rt, rest),
            "world" => self.begin_world(rt, rest),
            _ => self.go_on(rt, line, verb, rest),
        }
    }

    /// A group gets its name: `NAME = WORDS` or `NAME(PARAMETER, PARAMETER) = WORDS`.
    fn name(&mut self, text: &'a str) -> Result<(), Fault> {
        let Some((head, words)) = text.split_once(" = ") else {
            return Err(Fault::Line("a name has words"));
        };
        let (name, parameters) = head.split_once('(').unwrap_or((head, ""));
        let mut places = Vec::new(self.alloc);
        for parameter in parameters.split([',', ')', ' ']) {
            if !parameter.is_empty() {
                places.push(parameter)?;
            }
        }
        let items = items(self.alloc, &self.groups, &places, words)?;
        self.groups.add(name, places.len(), items)
    }

    /// A scene of streams begins, where the last one ends.
    fn begin<R: Print>(&mut self, rt: &R, title: &'a str) -> Result<(), Fault> {
        self.end(rt)?;
        let scene = Scene::new(self.alloc, title)?;
        drop(self.scene.replace(Begun::Stream(scene)));
        Ok(())
    }

    /// A scene of a world begins, where the last one ends.
    fn begin_world<R: Print>(&mut self, rt: &R, title: &'a str) -> Result<(), Fault> {
        self.end(rt)?;
        let scene = WorldScene::new(self.alloc, title)?;
        drop(self.scene.replace(Begun::World(scene)));
        Ok(())
    }

    /// The last scene ends.
    pub fn end<R: Print>(&mut self, rt: &R) -> Result<(), Fault> {
        let is_kept = match &mut self.scene {
            None => return Ok(()),
            Some(Begun::Stream(scene)) => {
                scene.play(rt)?;
                self.refused = self.refused.wrapping_add(scene.refused());
                scene.is_kept
            }
            Some(Begun::World(scene)) => scene.play(rt)?,
        };
        if is_kept {
            self.kept = self.kept.wrapping_add(1);
        } else {
            self.broken = self.broken.wrapping_add(1);
        }
        Ok(())
    }

    /// The scene goes on by a line.
    fn go_on<R: Print>(
        &mut self,
        rt: &R,
        line: u64,
        verb: &str,
        rest: &'a str,
    ) -> Result<(), Fault> {
        match &mut self.scene {
            None => Err(Fault::Line("no scene has begun")),
            Some(Begun::Stream(scene)) => stream_line(rt, &self.groups, scene, line, verb, rest),
            Some(Begun::World(scene)) => world_line(&self.groups, scene, line, verb, rest),
        }
    }
}

/// A scene of streams goes on by a line.
fn stream_line<R: Print>(
    rt: &R,
    groups: &Groups<'_>,
    scene: &mut Scene<'_>,
    line: u64,
    verb: &str,
    rest: &str,
) -> Result<(), Fault> {
    match verb {
        "options" => scene.set_options(rest),
        "host" => scene.set_host(rt, rest),
        "clock" => scene.set_clock(rt, small(rest)?),
        "xid" => {
            scene.set_xid(small(rest)?);
            Ok(())
        }
        "bears" => {
            scene.bear();
            Ok(())
        }
        "uncut" => {
            scene.leave_uncut();
            Ok(())
        }
        "again" => scene.repeat(line),
        "unsent" => scene.unsent(rt, line),
        _ => {
            let bytes = bytes(scene.alloc, groups, rest)?;
            let taken = match verb {
                "sent" => scene.sent(rt, line, &bytes),
                _ => scene.take(line, verb, &bytes),
            };
            drop(bytes);
            taken
        }
    }
}

/// A scene of a world goes on by a line.
fn world_line<'a>(
    groups: &Groups<'_>,
    scene: &mut WorldScene<'a>,
    line: u64,
    verb: &str,
    rest: &'a str,
) -> Result<(), Fault> {
    match verb {
        "options" => scene.set_options(rest),
        "host" => scene.set_host(rest),
        "xid" => scene.set_xid(small(rest)?),
        "exports" => scene.exports(line, rest)?,
        _ => {
            let bytes = bytes(scene.alloc, groups, rest)?;
            let taken = scene.take(line, verb, &bytes);
            drop(bytes);
            return taken;
        }
    }
    Ok(())
}

/// A number of 32 bits.
fn small(text: &str) -> Result<u32, Fault> {
    match u32::try_from(read_number(text)?.value) {
        Ok(number) => Ok(number),
        Err(_) => Err(Fault::Line("the number is too large")),
    }
}
