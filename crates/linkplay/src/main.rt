// linkplay: plays a script of calls on the link. The script comes on standard input, a line for each call goes out.
#![tactic(auto)]

mod end;
mod ends;
mod lent;
mod play;
mod player;
mod told;

fn main(rt: HostRuntime) {
    play::play(&rt);
}
